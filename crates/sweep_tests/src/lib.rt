// Sweeps of a three-way coin and of the counter box, with values worked out by hand.
#![tactic(auto)]

#[cfg(test)]
mod tests {
    use counter_box::CounterBox;
    use file_model::FileModel;
    use plans::{Objective, Row};
    use std::process::Abort;
    use std::test::Fail;
    use sweep::sweep;

    // One state, one choice, D = 3: weight 1 earns 1, weight 2 earns 0.
    static COIN: [u8; 25] = [
        1, 0, 0, 0, 3, 0, 1, 0, 12, 0, 13, 0, 2, 1, 0, 0, 0, 1, 0, 2, 0, 0, 0, 0, 0,
    ];

    // The same with -1 in the place of 1.
    static LOSING: [u8; 25] = [
        1, 0, 0, 0, 3, 0, 1, 0, 12, 0, 13, 0, 2, 1, 0, 0, 0, 255, 255, 2, 0, 0, 0, 0, 0,
    ];

    const ROW: Row = Row {
        ceiling: 7,
        parts: [7; 4],
    };

    fn tossed(file: &[u8], bound: usize) -> Option<Row> {
        let model = FileModel::read(file);
        let objectives = [Objective {
            column: 0,
            bound,
            target: 0,
        }];
        let mut rows = [ROW; 2];
        sweep::<FileModel, blend::Up, blend::Down>(&model, &objectives, &[1], &mut rows)
    }

    fn check_row(
        rt: &impl Abort,
        row: Option<Row>,
        ceiling: i64,
        parts: [i64; 4],
    ) -> Result<(), Fail> {
        let row = row.ok_or("refused")?;
        assert_eq!(rt; row.ceiling, ceiling);
        assert_eq!(rt; row.parts, parts);
        Ok(())
    }

    #[test]
    fn coin(rt: HostRuntime) -> Result<(), Fail> {
        check_row(&rt, tossed(&COIN, 1), 21846, [21845, 0, 0, 0])?;
        check_row(&rt, tossed(&LOSING, 1), -21845, [-21846, 0, 0, 0])?;
        check_row(&rt, tossed(&COIN, 2), 43692, [43690, 0, 0, 0])
    }

    #[test]
    fn counter(rt: HostRuntime) -> Result<(), Fail> {
        let model = CounterBox::new(1, 99);
        let objectives = [
            Objective {
                column: 0,
                bound: 1,
                target: 0,
            },
            Objective {
                column: 1,
                bound: 2,
                target: 0,
            },
        ];
        let mut rows = [ROW; 5];
        let row = sweep::<CounterBox, blend::Up, blend::Down>(
            &model,
            &objectives,
            &[1, 0],
            &mut rows,
        );
        check_row(&rt, row, 64881, [64880, -3277, 0, 0])?;
        check_row(&rt, Some(rows[0]), 64881, [64880, -3277, 0, 0])?;
        // state 1 at step 1: the lock is full, its one choice costs 5
        check_row(&rt, Some(rows[3]), 0, [0, -327680, 0, 0])?;
        check_row(&rt, Some(rows[4]), 7, [7; 4])
    }

    #[test]
    fn refused(rt: HostRuntime) -> Result<(), Fail> {
        let model = CounterBox::new(1, 99);
        let objective = Objective {
            column: 0,
            bound: 1,
            target: 0,
        };
        let far = Objective {
            column: 0,
            bound: 257,
            target: 0,
        };
        let mut rows = [ROW; 4];
        assert!(rt;
            sweep::<CounterBox, blend::Up, blend::Down>(
                &model,
                &[objective; 5],
                &[1; 5],
                &mut rows,
            ).is_none()
        );
        assert!(rt;
            sweep::<CounterBox, blend::Up, blend::Down>(
                &model,
                &[objective],
                &[1; 2],
                &mut rows,
            ).is_none()
        );
        assert!(rt;
            sweep::<CounterBox, blend::Up, blend::Down>(
                &model,
                &[objective],
                &[1001],
                &mut rows,
            ).is_none()
        );
        assert!(rt;
            sweep::<CounterBox, blend::Up, blend::Down>(&model, &[far], &[1], &mut rows).is_none()
        );
        assert!(rt;
            sweep::<CounterBox, blend::Up, blend::Down>(
                &model,
                &[objective],
                &[1],
                &mut rows[0..3],
            ).is_none()
        );
        check_row(&rt, Some(rows[0]), 7, [7; 4])?;
        assert!(rt;
            sweep::<CounterBox, blend::Up, blend::Down>(
                &model,
                &[objective],
                &[1000],
                &mut rows,
            ).is_some()
        );
        Ok(())
    }
}
