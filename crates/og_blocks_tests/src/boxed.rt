//! Blocks that a host program makes: a first price auction, and one of its own.
ghost use Rattle.std.specs.Prelude.{◌≡◌};
ghost use Rattle.og_native.specs.Answered.{Answers};
ghost use Rattle.og_native.specs.Shipped.{played, payoffs};
ghost use Rattle.og_blocks_tests.specs.Seconds.{second, prize_each};

use crate::equal::check_equal;
use crate::laws::told;
use og_frac::Frac;
use og_list::{List, Text};
use og_native::{
    Blocks, Law, Library, LibraryFault, NativeFault, Pay, Play, StoredLens, shipped, split_ports,
};
use og_types::Value;
use std::alloc::{AllocError, Global};
use std::process::Abort;

/// A law of the host program's own: the second stake, with nothing where the first is 0, and the prize for each.
#[derive(Clone, Copy)]
struct Seconds {}

impl Law for Seconds {
    ghost forward = { λ law. second };

    ghost backward = { λ law. prize_each };
}

fn the_second(alloc: Global, inputs: &[Value]) -> Result<List<Value>, NativeFault>
    ensures { Answers (second inputs.now) result }
{
    let [v, w] = inputs else {
        return Err(NativeFault::Passes);
    };
    match (v.as_number(), w.as_number()) {
        (Some(x), Some(y)) => {
            if x.num() == 0 {
                return Err(NativeFault::Passes);
            }
            let mut outputs = List::new(alloc);
            match outputs.add(Value::Number(y)) {
                Ok(_) => Ok(outputs),
                Err(_) => Err(NativeFault::Memory),
            }
        }
        _ => Err(NativeFault::Passes),
    }
}

/// What the library of the program's mechanisms and of a block of the host's own answers, or the name that
/// repeats.
fn asked(alloc: Global, own_name: &str) -> Result<Found, AllocError> {
    let mut blocks = Vec::new(alloc);
    'mechanisms: for m in shipped() {
        let play: Play = Box::new(
            alloc,
            move |alloc: Global, inputs: &[Value]| -> Result<List<Value>, NativeFault>
                ensures { Answers (played m inputs.now) result }
            { m.play(alloc, inputs) },
        )?;
        let pay: Pay = Box::new(
            alloc,
            move |alloc: Global, inputs: &[Value], returns: &[Value]| -> Result<
                List<Value>,
                NativeFault,
            >
                ensures { Answers (payoffs m inputs.now returns.now) result }
            { m.pay(alloc, inputs, returns) },
        )?;
        let name = Text::from(alloc, m.name())?;
        let ports = m.ports(alloc)?;
        blocks.push(StoredLens::new(name, ports, m, play, pay))?;
    }
    let own_play: Play = Box::new(
        alloc,
        |alloc: Global, inputs: &[Value]| -> Result<List<Value>, NativeFault>
            ensures { Answers (second inputs.now) result }
        { the_second(alloc, inputs) },
    )?;
    // it always wants memory
    let own_pay: Pay = Box::new(
        alloc,
        |_alloc: Global, inputs: &[Value], returns: &[Value]| -> Result<List<Value>, NativeFault>
            ensures { Answers (prize_each inputs.now returns.now) result }
        { Err(NativeFault::Memory) },
    )?;
    let own_name = Text::from(alloc, own_name)?;
    let own_ports = split_ports(alloc)?;
    blocks.push(StoredLens::new(own_name, own_ports, Seconds {}, own_play, own_pay))?;
    match Library::new(alloc, blocks) {
        Ok(library) => Ok(Found::Answers(answers(alloc, &library)?)),
        Err(LibraryFault::Twice(name)) => Ok(Found::Twice(name)),
        Err(LibraryFault::Memory) => Err(AllocError),
    }
}

/// What a block plays or pays.
type Answer = Result<List<Value>, NativeFault>;

/// What came of the blocks.
#[derive(Drop)]
enum Found {
    /// Two have this name.
    Twice(Text),
    /// What they answer, and what the number after theirs does: in turn what is played, and what is paid.
    Answers(Vec<Answer>),
}

/// A block's name, its inputs, its returns, and what it plays and pays.
const ASKED: [(&str, &[i32], &[i32], &str, &str); 10] = [
    ("first_price2", &[2, 1], &[5, 5], "1", "3 and 0"),
    ("second_price2", &[2, 1], &[5, 5], "1", "4 and 0"),
    ("second_price2", &[1, 1], &[5, 5], "1", "4 and 0"),
    ("all_pay2", &[1, 2], &[5, 5], "2", "-1 and 3"),
    ("all_pay2", &[-1, -2], &[5, 5], "0", "1 and 2"),
    ("split2", &[1, 3], &[8], "1/4", "1 and 3"),
    // there is no second stake
    ("split2", &[1], &[8], "Passes", "Passes"),
    ("own", &[1, 7], &[8], "7", "Memory"),
    // the law has no value
    ("own", &[0, 7], &[8], "Passes", "Memory"),
    // there is no such block
    ("first_price", &[2, 1], &[5, 5], "Passes", "Passes"),
];

fn numbers(alloc: Global, of: &[i32]) -> Result<List<Value>, AllocError> {
    let mut all = List::new(alloc);
    for n in of {
        all.add(Value::Number(Frac::whole(*n as i64)))?;
    }
    Ok(all)
}

fn answers(alloc: Global, library: &Library) -> Result<Vec<Answer>, AllocError> {
    let mut all = Vec::new(alloc);
    for (name, inputs, returns, _, _) in ASKED {
        let number = library.find(name).unwrap_or(99);
        let inputs = numbers(alloc, inputs)?;
        let returns = numbers(alloc, returns)?;
        all.push(library.play(alloc, number, &inputs))?;
        all.push(library.pay(alloc, number, &inputs, &returns))?;
    }
    Ok(all)
}

/// What is found, each with `; ` behind it, or the name.
fn tell(rt: &impl Abort, alloc: Global, found: Found) -> Text {
    let mut all = Text::from(alloc, "").expect(rt, "memory");
    match found {
        Found::Twice(name) => all.push_str(name.as_str()).expect(rt, "memory"),
        Found::Answers(answers) => {
            for answer in answers {
                all.push_str(told(rt, alloc, answer).as_str())
                    .expect(rt, "memory");
                all.push_str("; ").expect(rt, "memory");
            }
        }
    }
    all
}

/// What the table wants, in the same way.
fn wanted(rt: &impl Abort, alloc: Global) -> Text {
    let mut all = Text::from(alloc, "").expect(rt, "memory");
    for (_, _, _, played, paid) in ASKED {
        all.push_str(played).expect(rt, "memory");
        all.push_str("; ").expect(rt, "memory");
        all.push_str(paid).expect(rt, "memory");
        all.push_str("; ").expect(rt, "memory");
    }
    all
}

#[test]
fn boxed(rt: HostRuntime) {
    let alloc = rt.alloc();
    let found = asked(alloc, "own").expect(&rt, "memory");
    check_equal(
        &rt,
        tell(&rt, alloc, found).as_str(),
        wanted(&rt, alloc).as_str(),
    );
    let twice = asked(alloc, "split2").expect(&rt, "memory");
    check_equal(&rt, tell(&rt, alloc, twice).as_str(), "split2");
}
