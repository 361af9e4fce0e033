// Models read from files, question by question.
#![tactic(auto)]

#[cfg(test)]
mod tests {
    use fault::Cause;
    use file_check::faults::FileCause;
    use file_model::FileModel;
    use mdp::{Model, WholeBranch};

    // Two states, two columns: from state 0 both choices lead to state 1, earning (4, 0) or (0, 4); state 1 stays.
    static TWO_STATES: [u8; 43] = [
        2, 0, 0, 0, 1, 0, 2, 0, 16, 0, 18, 0, 34, 0, 9, 0, 1, 1, 0, 1, 0, 4, 0, 0, 0, 1, 1, 0, 1,
        0, 0, 0, 4, 0, 1, 1, 0, 1, 0, 0, 0, 0, 0,
    ];

    // One state that goes round with weight 10,000 = 0x2710, earning -1,000 = 0xFC18 in the last of four columns.
    static EDGES: [u8; 25] = [
        1, 0, 0, 0, 16, 39, 4, 0, 12, 0, 13, 0, 1, 16, 39, 0, 0, 232, 3, 0, 0, 255, 255, 24, 252,
    ];

    #[test]
    fn two_states_sizes(rt: HostRuntime) {
        let model = FileModel::read(&TWO_STATES);
        assert_eq!(rt; model.fault(), None);
        assert_eq!(rt; model.states(), 2);
        assert_eq!(rt; model.first(), 0);
        assert_eq!(rt; model.divisor(), 1);
        assert_eq!(rt; model.columns(), 2);
        assert_eq!(rt; model.choices(0), Some(2));
        assert_eq!(rt; model.choices(1), Some(1));
        assert_eq!(rt; model.branches(0, 0), Some(1));
        assert_eq!(rt; model.branches(0, 1), Some(1));
        assert_eq!(rt; model.branches(1, 0), Some(1));
    }

    #[test]
    fn two_states_branches(rt: HostRuntime) {
        let model = FileModel::read(&TWO_STATES);
        assert_eq!(rt; model.weight(0, 1, 0), Some(1));
        assert_eq!(rt; model.next(0, 1, 0), Some(1));
        assert_eq!(rt; model.reward(0, 0, 0, 0), Some(4));
        assert_eq!(rt; model.reward(0, 0, 0, 1), Some(0));
        assert_eq!(rt; model.reward(0, 1, 0, 0), Some(0));
        assert_eq!(rt; model.reward(0, 1, 0, 1), Some(4));
        let branch = WholeBranch {
            weight: 1,
            next: 1,
            rewards: [0, 4, 0, 0],
        };
        assert_eq!(rt; model.branch(0, 1, 0), Some(branch));
    }

    #[test]
    fn lacking(rt: HostRuntime) {
        let model = FileModel::read(&TWO_STATES);
        assert_eq!(rt; model.choices(2), None);
        assert_eq!(rt; model.choices(usize::MAX), None);
        assert_eq!(rt; model.branches(2, 0), None);
        assert_eq!(rt; model.branches(1, 1), None);
        assert_eq!(rt; model.weight(0, 2, 0), None);
        assert_eq!(rt; model.weight(0, 0, 1), None);
        assert_eq!(rt; model.next(1, 0, 1), None);
        assert_eq!(rt; model.reward(0, 0, 0, 2), None);
        assert_eq!(rt; model.reward(0, 0, 0, usize::MAX), None);
        assert_eq!(rt; model.branch(0, 0, 1), None);
    }

    #[test]
    fn four_columns(rt: HostRuntime) {
        let model = FileModel::read(&EDGES);
        assert_eq!(rt; model.fault(), None);
        assert_eq!(rt; model.divisor(), 10000);
        assert_eq!(rt; model.columns(), 4);
        let branch = WholeBranch {
            weight: 10000,
            next: 0,
            rewards: [1000, 0, -1, -1000],
        };
        assert_eq!(rt; model.branch(0, 0, 0), Some(branch));
        assert_eq!(rt; model.reward(0, 0, 0, 3), Some(-1000));
    }

    #[test]
    fn refused_is_blank(rt: HostRuntime) {
        let model = FileModel::read(&TWO_STATES[0..42]);
        assert_eq!(rt; model.fault(), Some(FileCause::Pair.at(12)));
        assert_eq!(rt; model.states(), 1);
        assert_eq!(rt; model.first(), 0);
        assert_eq!(rt; model.divisor(), 1);
        assert_eq!(rt; model.columns(), 1);
        assert_eq!(rt; model.choices(0), Some(1));
        assert_eq!(rt; model.choices(1), None);
        assert_eq!(rt; model.branches(0, 0), Some(1));
        let branch = WholeBranch {
            weight: 1,
            next: 0,
            rewards: [0, 0, 0, 0],
        };
        assert_eq!(rt; model.branch(0, 0, 0), Some(branch));
        assert_eq!(rt; model.reward(0, 0, 0, 1), None);
    }
}
