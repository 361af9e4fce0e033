// What the counter box, the layers and piles of them answer and refuse.
use crate::still::Still;
use counter_box::CounterBox;
use fault::Cause;
use layers::faults::{GoalCause, GoalFault, MirrorCause, MirrorFault};
use layers::goal::Goal;
use layers::marks::Marks;
use layers::mirror::Mirror;
use mdp::{Model, WholeBranch};
use std::process::Abort;
use std::test::Fail;

fn whole(weight: u16, next: usize, rewards: [i16; 4]) -> Option<WholeBranch> {
    Some(WholeBranch {
        weight,
        next,
        rewards,
    })
}

fn marks_at(states: &[u8]) -> Marks {
    let mut marks = Marks::none();
    for state in states {
        marks.mark(*state);
    }
    marks
}

fn fit_goal(model: Still, states: &[u8]) -> Result<(), GoalFault> {
    let mut goal = Goal::idle(model);
    goal.fit(marks_at(states))
}

fn fit_mirror(model: Still, column: usize) -> Result<(), MirrorFault> {
    let mut mirror = Mirror::idle(model);
    mirror.fit(column)
}

fn no_room(states: usize) -> Result<(), GoalFault> {
    Err(GoalCause::Room.at(states))
}

fn wrong_mark(state: usize) -> Result<(), GoalFault> {
    Err(GoalCause::Mark.at(state))
}

// A model is asked by number, here also past the last.
fn same_branches<A: Model, B: Model>(rt: &impl Abort, a: &A, b: &B, state: usize, choice: usize) {
    assert_eq!(rt; a.branches(state, choice), b.branches(state, choice));
    for branch in 0..4 {
        assert_eq!(rt;
            a.weight(state, choice, branch),
            b.weight(state, choice, branch)
        );
        assert_eq!(rt;
            a.next(state, choice, branch),
            b.next(state, choice, branch)
        );
        assert_eq!(rt;
            a.branch(state, choice, branch),
            b.branch(state, choice, branch)
        );
        for column in 0..5 {
            assert_eq!(rt;
                a.reward(state, choice, branch, column),
                b.reward(state, choice, branch, column)
            );
        }
    }
}

// The answers of two models of at most 20 states.
fn same<A: Model, B: Model>(rt: &impl Abort, a: &A, b: &B) {
    assert_eq!(rt; a.states(), b.states());
    assert_eq!(rt; a.first(), b.first());
    assert_eq!(rt; a.divisor(), b.divisor());
    assert_eq!(rt; a.columns(), b.columns());
    for state in 0..21 {
        assert_eq!(rt; a.choices(state), b.choices(state));
        for choice in 0..4 {
            same_branches(rt, a, b, state, choice);
        }
    }
}

#[test]
fn smallest_counter_box(rt: HostRuntime) {
    let model = CounterBox::new(1, 99);
    assert_eq!(rt; [model.states(), model.first(), model.columns()], [2, 0, 2]);
    assert_eq!(rt; model.divisor(), 100);
    assert_eq!(rt;
        [model.choices(0), model.choices(1), model.choices(2)],
        [Some(2), Some(1), None]
    );
    assert_eq!(rt;
        [
            model.branches(0, 0),
            model.branches(0, 1),
            model.branches(0, 2),
        ],
        [Some(2), Some(1), None]
    );
    assert_eq!(rt;
        [
            model.branches(1, 0),
            model.branches(1, 1),
            model.branches(2, 0),
        ],
        [Some(1), None, None]
    );
}

#[test]
fn smallest_counter_box_branches(rt: HostRuntime) {
    let model = CounterBox::new(1, 99);
    assert_eq!(rt; model.branch(0, 0, 0), whole(99, 0, [1, 0, 0, 0]));
    assert_eq!(rt; model.branch(0, 0, 1), whole(1, 1, [0, 0, 0, 0]));
    assert_eq!(rt; model.branch(0, 1, 0), whole(100, 0, [0, 0, 0, 0]));
    assert_eq!(rt; model.branch(1, 0, 0), whole(100, 0, [0, -5, 0, 0]));
    assert_eq!(rt;
        [
            model.branch(0, 0, 2),
            model.branch(0, 1, 1),
            model.branch(2, 0, 0),
        ],
        [None, None, None]
    );
}

#[test]
fn counter_box_parts(rt: HostRuntime) {
    let model = CounterBox::new(15, 30);
    assert_eq!(rt; model.branch(14, 0, 1), whole(70, 15, [0, -14, 0, 0]));
    assert_eq!(rt; model.weight(14, 0, 1), Some(70));
    assert_eq!(rt; model.next(14, 0, 1), Some(15));
    assert_eq!(rt;
        [model.reward(14, 0, 1, 0), model.reward(14, 0, 1, 1)],
        [Some(0), Some(-14)]
    );
    assert_eq!(rt;
        [model.reward(14, 0, 1, 2), model.reward(14, 0, 2, 0)],
        [None, None]
    );
}

#[test]
fn counter_box_is_clamped(rt: HostRuntime) {
    same(&rt, &CounterBox::new(0, 0), &CounterBox::new(1, 1));
    same(&rt, &CounterBox::new(99, 1000), &CounterBox::new(15, 99));
    same(
        &rt,
        &CounterBox::new(usize::MAX, 100),
        &CounterBox::new(15, 99),
    );
}

#[test]
fn goal_wants_room_for_states(rt: HostRuntime) {
    assert_eq!(rt; fit_goal(Still::new(257, 1), &[]), no_room(257));
    assert_eq!(rt; fit_goal(Still::new(512, 4), &[0]), no_room(512));
    assert_eq!(rt; fit_goal(Still::new(256, 3), &[]), Ok(()));
}

#[test]
fn goal_wants_room_for_a_column(rt: HostRuntime) {
    assert_eq!(rt; fit_goal(Still::new(256, 4), &[]), no_room(4));
    assert_eq!(rt; fit_goal(Still::new(9, 4), &[8, 9]), no_room(4));
}

// The first state of these models is the last.
#[test]
fn goal_names_the_lowest_wrong_mark(rt: HostRuntime) {
    assert_eq!(rt; fit_goal(Still::new(10, 1), &[9]), wrong_mark(9));
    assert_eq!(rt; fit_goal(Still::new(10, 1), &[10]), wrong_mark(10));
    assert_eq!(rt; fit_goal(Still::new(10, 1), &[255]), wrong_mark(255));
    assert_eq!(rt;
        fit_goal(Still::new(10, 1), &[200, 3, 9, 10]),
        wrong_mark(9)
    );
    assert_eq!(rt; fit_goal(Still::new(10, 1), &[200, 3, 11]), wrong_mark(11));
    assert_eq!(rt; fit_goal(Still::new(1, 1), &[0]), wrong_mark(0));
    assert_eq!(rt; fit_goal(Still::new(256, 3), &[255]), wrong_mark(255));
    assert_eq!(rt; fit_goal(Still::new(10, 1), &[8, 0]), Ok(()));
}

#[test]
fn mirror_refuses(rt: HostRuntime) {
    let room = MirrorCause::Room.at(4);
    let column = MirrorCause::Column.at(2);
    assert_eq!(rt; fit_mirror(Still::new(512, 4), 0), Err(room));
    assert_eq!(rt; fit_mirror(Still::new(512, 4), 4), Err(room));
    assert_eq!(rt; fit_mirror(Still::new(512, 2), 2), Err(column));
    assert_eq!(rt; fit_mirror(Still::new(512, 3), 2), Ok(()));
}

#[test]
fn idle_layers_add_nothing(rt: HostRuntime) {
    let model = CounterBox::new(3, 40);
    same(&rt, &Goal::idle(model), &model);
    same(&rt, &Mirror::idle(model), &model);
    same(&rt, &Goal::idle(Mirror::idle(model)), &model);
}

// Also where an earlier fit was taken.
#[test]
fn refused_layers_are_idle(rt: HostRuntime) {
    let model = CounterBox::new(3, 40);
    let mut goal = Goal::idle(model);
    assert_eq!(rt; goal.fit(marks_at(&[2])), Ok(()));
    assert_eq!(rt; goal.states(), 8);
    assert_eq!(rt; goal.fit(marks_at(&[2, 0])), wrong_mark(0));
    same(&rt, &goal, &model);
    let mut mirror = Mirror::idle(model);
    assert_eq!(rt; mirror.fit(1), Ok(()));
    assert_eq!(rt; mirror.columns(), 3);
    assert!(rt; mirror.fit(2).is_err());
    same(&rt, &mirror, &model);
}

#[test]
fn layers_grow_to_the_limits(rt: HostRuntime) {
    let mut goal = Goal::idle(Still::new(256, 3));
    assert_eq!(rt; goal.fit(marks_at(&[0])), Ok(()));
    assert_eq!(rt; goal.states(), 512);
    assert_eq!(rt; goal.columns(), 4);
    assert_eq!(rt; goal.branch(255, 0, 0), whole(1, 256, [0, 0, 0, 1]));
    assert_eq!(rt; goal.branch(256, 0, 0), whole(1, 256, [0, 0, 0, 0]));
    assert_eq!(rt; goal.branch(511, 0, 0), whole(1, 256, [0, 0, 0, 0]));
    assert_eq!(rt; goal.branch(512, 0, 0), None);
}

#[test]
fn pile_of_three(rt: HostRuntime) {
    let mut mirror = Mirror::idle(CounterBox::new(2, 50));
    assert_eq!(rt; mirror.fit(1), Ok(()));
    let mut goal = Goal::idle(mirror);
    assert_eq!(rt; goal.fit(marks_at(&[2])), Ok(()));
    assert_eq!(rt; [goal.states(), goal.first(), goal.columns()], [6, 0, 4]);
    assert_eq!(rt;
        [goal.choices(2), goal.choices(5), goal.choices(6)],
        [Some(1), Some(1), None]
    );
    assert_eq!(rt;
        [goal.next(1, 0, 1), goal.next(4, 0, 1), goal.next(5, 0, 0)],
        [Some(5), Some(5), Some(3)]
    );
    assert_eq!(rt;
        [goal.reward(1, 0, 1, 3), goal.reward(4, 0, 1, 3)],
        [Some(1), Some(0)]
    );
    assert_eq!(rt;
        [goal.reward(5, 0, 0, 1), goal.reward(5, 0, 0, 2)],
        [Some(-5), Some(5)]
    );
    pile_branches(&rt, &goal);
}

fn pile_branches<M: Model>(rt: &impl Abort, goal: &M) {
    assert_eq!(rt; goal.branch(1, 0, 0), whole(50, 0, [1, -1, 1, 0]));
    assert_eq!(rt; goal.branch(1, 0, 1), whole(50, 5, [0, -1, 1, 1]));
    assert_eq!(rt; goal.branch(4, 0, 1), whole(50, 5, [0, -1, 1, 0]));
    assert_eq!(rt; goal.branch(5, 0, 0), whole(100, 3, [0, -5, 5, 0]));
}

#[test]
fn mirror_over_goal(rt: HostRuntime) {
    let mut goal = Goal::idle(CounterBox::new(1, 20));
    assert_eq!(rt; goal.fit(marks_at(&[1])), Ok(()));
    let mut mirror = Mirror::idle(goal);
    assert_eq!(rt; mirror.fit(2), Ok(()));
    assert_eq!(rt; mirror.branch(0, 0, 1), whole(80, 3, [0, 0, 1, -1]));
    assert_eq!(rt; mirror.branch(2, 0, 1), whole(80, 3, [0, 0, 0, 0]));
}

// A pile has no more columns than a model may have.
#[test]
fn pile_that_is_full(rt: HostRuntime) {
    let mut mirror = Mirror::idle(CounterBox::new(2, 50));
    assert_eq!(rt; mirror.fit(0), Ok(()));
    let mut goal = Goal::idle(mirror);
    assert_eq!(rt; goal.fit(marks_at(&[1])), Ok(()));
    let mut outer = Goal::idle(goal);
    assert_eq!(rt; outer.fit(marks_at(&[1])), no_room(4));
    assert_eq!(rt; outer.columns(), 4);
    assert_eq!(rt; outer.states(), 6);
    assert_eq!(rt; outer.choices(6), None);
}

#[test]
fn faults_are_written(rt: HostRuntime) -> Result<(), Fail> {
    let goal = GoalCause::Room.at(300);
    let mirror = MirrorCause::Column.at(2);
    assert_eq!(rt; goal.to_string(rt.alloc())?.as_str(), "goal 6 300");
    assert_eq!(rt; mirror.to_string(rt.alloc())?.as_str(), "mirror 7 2");
    Ok(())
}
