// Prints the table of a pile: a goal over a mirror over a counter box, one line for each branch.
#![tactic(auto)]

use counter_box::CounterBox;
use layers::goal::Goal;
use layers::marks::Marks;
use layers::mirror::Mirror;
use mdp::Model;
use std::io;

const LIMIT: usize = 2;
// in percent
const CHANCE: u16 = 50;

const EXPOSURE: usize = 1;

const FULL_STATE: u8 = 2;

type Pile = Goal<Mirror<CounterBox>>;

fn make_pile() -> Pile {
    let mut mirror = Mirror::idle(CounterBox::new(LIMIT, CHANCE));
    let _ = mirror.fit(EXPOSURE);
    let mut marks = Marks::none();
    marks.mark(FULL_STATE);
    let mut goal = Goal::idle(mirror);
    let _ = goal.fit(marks);
    goal
}

// A model is asked by number and lends no slice: its states, choices and branches are counted.
fn show_choice<M: Model>(
    rt: &impl Print,
    model: &M,
    state: usize,
    choice: usize,
) -> io::Result<()> {
    for branch in 0..model.branches(state, choice).unwrap_or(0) {
        if let Some(whole) = model.branch(state, choice, branch) {
            let weight = whole.weight;
            let next = whole.next;
            let rewards = whole.rewards;
            println!(rt; "{state} {choice} {branch}: {weight} to {next} earns {rewards:?}")?;
        }
    }
    Ok(())
}

fn show<M: Model>(rt: &impl Print, model: &M) -> io::Result<()> {
    for state in 0..model.states() {
        for choice in 0..model.choices(state).unwrap_or(0) {
            show_choice(rt, model, state, choice)?;
        }
    }
    Ok(())
}

fn main(rt: HostRuntime) -> io::Result<()> {
    show(&rt, &make_pile())
}
