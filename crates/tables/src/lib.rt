// The tables of the counter box and of the layers, and that they have the facts of a model's table.
#![tactic(auto)]

ghost use Rattle.tables.specs.Claims.{GoalDecided, GoalTested, GoalKept, MirrorDecided, MirrorTested, MirrorKept};

// What a layer makes of any table where it is put on only if it fits.
pub fn laws_of_layers()
    ensures goal_decided { GoalDecided }
    ensures goal_tested { GoalTested }
    ensures goal_kept { GoalKept }
    ensures mirror_decided { MirrorDecided }
    ensures mirror_tested { MirrorTested }
    ensures mirror_kept { MirrorKept }
{}
