use crate::equal::check_equal;
use og_frac::Frac;
use og_list::{List, Text};
use og_native::{AllPay, FirstPrice, NativeFault, SecondPrice, Split, Tie};
use og_types::{Enums, Value, show};
use std::alloc::Global;
use std::process::Abort;

const MOST: i64 = i64::MAX;

/// A kind of auction.
#[derive(Clone, Copy)]
enum Kind {
    First,
    Second,
    All,
}

/// The kind, the reserve and the tie; two bids and their worths; the winner's number and the payoffs, or the refusal.
type Auction = (
    Kind,
    i64,
    Tie,
    [i64; 2],
    [i64; 2],
    &'static str,
    &'static str,
);

const AUCTIONS: [Auction; 33] = [
    (Kind::First, 0, Tie::First, [1, 1], [2, 2], "1", "1 and 0"),
    (Kind::First, 0, Tie::First, [2, 0], [2, 2], "1", "0 and 0"),
    (Kind::First, 0, Tie::First, [0, 0], [2, 2], "1", "2 and 0"),
    (Kind::First, 0, Tie::First, [1, 0], [2, 2], "1", "1 and 0"),
    (Kind::First, 0, Tie::First, [0, 2], [5, 7], "2", "0 and 5"),
    // a worth that its own case doesn't name may be as low as it likes
    (
        Kind::First,
        0,
        Tie::First,
        [2, 0],
        [-MOST, 2],
        "1",
        "Passes",
    ),
    (
        Kind::First,
        0,
        Tie::First,
        [1, 1],
        [-MOST, 2],
        "1",
        "Passes",
    ),
    (
        Kind::First,
        0,
        Tie::First,
        [0, 1],
        [-MOST, 2],
        "2",
        "0 and 1",
    ),
    (
        Kind::First,
        0,
        Tie::First,
        [-1, -2],
        [MOST, MOST],
        "0",
        "0 and 0",
    ),
    (Kind::First, 1, Tie::Second, [0, 0], [5, 5], "0", "0 and 0"),
    (Kind::First, 1, Tie::Second, [0, 1], [5, 5], "2", "0 and 4"),
    (Kind::First, 1, Tie::Second, [1, 0], [5, 5], "1", "4 and 0"),
    (Kind::First, 1, Tie::Second, [1, 1], [5, 5], "2", "0 and 4"),
    (Kind::First, 1, Tie::Second, [3, 2], [5, 5], "1", "2 and 0"),
    (Kind::Second, 0, Tie::First, [1, 1], [1, 1], "1", "0 and 0"),
    (Kind::Second, 0, Tie::First, [1, 0], [1, 0], "1", "1 and 0"),
    (Kind::Second, 0, Tie::First, [0, 1], [0, 1], "2", "0 and 1"),
    (Kind::Second, 0, Tie::First, [0, 0], [0, 0], "1", "0 and 0"),
    (Kind::Second, 0, Tie::First, [5, 3], [10, 4], "1", "7 and 0"),
    (Kind::Second, 0, Tie::First, [3, 5], [10, 4], "2", "0 and 1"),
    (
        Kind::Second,
        0,
        Tie::First,
        [MOST, 1],
        [-MOST, 0],
        "1",
        "Passes",
    ),
    (
        Kind::Second,
        0,
        Tie::First,
        [1, MOST],
        [-MOST, 0],
        "2",
        "0 and -1",
    ),
    (Kind::Second, 1, Tie::Second, [0, 0], [5, 5], "0", "0 and 0"),
    // the winner pays the reserve
    (Kind::Second, 1, Tie::Second, [3, 0], [5, 5], "1", "4 and 0"),
    (Kind::Second, 1, Tie::Second, [0, 3], [5, 5], "2", "0 and 4"),
    (Kind::Second, 1, Tie::Second, [2, 2], [5, 5], "2", "0 and 3"),
    (Kind::All, 0, Tie::First, [2, 1], [5, 5], "1", "3 and -1"),
    (Kind::All, 0, Tie::First, [1, 2], [5, 5], "2", "-1 and 3"),
    (Kind::All, 0, Tie::First, [0, 0], [5, 5], "1", "5 and 0"),
    (Kind::All, 2, Tie::First, [1, 1], [5, 5], "0", "-1 and -1"),
    (Kind::All, 1, Tie::Second, [1, 1], [5, 5], "2", "-1 and 4"),
    (Kind::All, 0, Tie::First, [2, 1], [-MOST, 5], "1", "Passes"),
    (
        Kind::All,
        0,
        Tie::First,
        [1, 2],
        [-MOST, 5],
        "2",
        "-1 and 3",
    ),
];

fn numbers(rt: &impl Abort, alloc: Global, of: &[i64]) -> List<Value> {
    let mut all = List::new(alloc);
    for n in of {
        let number = Frac::new(*n, 1).expect(rt, "a fraction that fits");
        all.add(Value::Number(number)).expect(rt, "memory");
    }
    all
}

/// The values, one after another, or the refusal.
pub fn told(rt: &impl Abort, alloc: Global, answer: Result<List<Value>, NativeFault>) -> Text {
    let mut text = Text::from(alloc, "").expect(rt, "memory");
    match answer {
        Ok(values) => {
            let names = Enums {
                families: List::new(alloc),
            };
            for v in values.as_slice() {
                if text.len() > 0 {
                    text.push_str(" and ").expect(rt, "memory");
                }
                let shown = show(alloc, v, &names).expect(rt, "memory");
                text.push_str(shown.as_str()).expect(rt, "memory");
            }
        }
        Err(NativeFault::Passes) => text.push_str("Passes").expect(rt, "memory"),
        Err(NativeFault::Memory) => text.push_str("Memory").expect(rt, "memory"),
    }
    text
}

fn check_auction(rt: &impl Abort, alloc: Global, row: &Auction) {
    let (kind, reserve, tie, bids, worths, won, paid) = row;
    let reserve = Frac::new(*reserve, 1).expect(rt, "a fraction that fits");
    let tie = *tie;
    let bids = numbers(rt, alloc, bids);
    let worths = numbers(rt, alloc, worths);
    let (bids, worths) = (bids.as_slice(), worths.as_slice());
    let (played, payoffs) = match kind {
        Kind::First => {
            let law = FirstPrice { reserve, tie };
            (law.play(alloc, bids), law.pay(alloc, bids, worths))
        }
        Kind::Second => {
            let law = SecondPrice { reserve, tie };
            (law.play(alloc, bids), law.pay(alloc, bids, worths))
        }
        Kind::All => {
            let law = AllPay { reserve, tie };
            (law.play(alloc, bids), law.pay(alloc, bids, worths))
        }
    };
    check_equal(rt, told(rt, alloc, played).as_str(), *won);
    check_equal(rt, told(rt, alloc, payoffs).as_str(), *paid);
}

#[test]
fn auctions(rt: HostRuntime) {
    for row in &AUCTIONS {
        check_auction(&rt, rt.alloc(), row);
    }
}

/// Two stakes and the prize; the first's share and the payoffs, or the refusal.
const SPLITS: [(&[i64], &[i64], &str, &str); 8] = [
    (&[1, 3], &[8], "1/4", "1 and 3"),
    (&[0, 0], &[8], "1/2", "4 and 4"),
    (&[2, 0], &[8], "1", "6 and 0"),
    (&[-1, 3], &[4], "-1/2", "-1 and 3"),
    // both stakes don't fit, a product doesn't, and there is no second stake
    (&[MOST, MOST], &[8], "Passes", "Passes"),
    (
        &[1, 1],
        &[MOST],
        "1/2",
        "9223372036854775805/2 and 9223372036854775805/2",
    ),
    (&[3, -1], &[MOST], "3/2", "Passes"),
    (&[1], &[8], "Passes", "Passes"),
];

#[test]
fn splits(rt: HostRuntime) {
    let alloc = rt.alloc();
    for (stakes, prize, share, paid) in SPLITS {
        let stakes = numbers(&rt, alloc, stakes);
        let prize = numbers(&rt, alloc, prize);
        let law = Split {};
        let played = law.play(alloc, stakes.as_slice());
        check_equal(&rt, told(&rt, alloc, played).as_str(), share);
        let payoffs = law.pay(alloc, stakes.as_slice(), prize.as_slice());
        check_equal(&rt, told(&rt, alloc, payoffs).as_str(), paid);
    }
}
