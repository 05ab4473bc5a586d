//! Games one after another and side by side.
use crate::walked::{Case, check_all};
use og_typing::WireFault;

/// Compositions.
const COMPOSITIONS: &[Case] = &[
    // One after another.
    (
        "game g = identity [] [] >>> identity [] []; game main = identity [] [];",
        Ok(()),
    ),
    (
        "game g = identity [bool, number] [number] >>> identity [bool, number] [number]; game
main = identity [] [];",
        Ok(()),
    ),
    (
        "type B = 0..1; game g = identity [0..1] [] >>> identity [B] []; game main = identity
[] [];",
        Ok(()),
    ),
    (
        "type S = { A }; type R = S; game g = identity [] [(S, R)] >>> identity [] [(R, S)];
game main = identity [] [];",
        Ok(()),
    ),
    (
        "game g = identity [bool] [] >>> identity [] []; game main = identity [] [];",
        Err(WireFault::WrongCount(32)),
    ),
    (
        "game g = identity [] [] >>> identity [bool] []; game main = identity [] [];",
        Err(WireFault::WrongCount(28)),
    ),
    (
        "game g = identity [] [] >>> identity [] [bool]; game main = identity [] [];",
        Err(WireFault::WrongCount(28)),
    ),
    (
        "game g = identity [] [bool] >>> identity [] []; game main = identity [] [];",
        Err(WireFault::WrongCount(32)),
    ),
    (
        "game g = identity [bool] [] >>> identity [number] []; game main = identity [] [];",
        Err(WireFault::WrongType(32)),
    ),
    (
        "game g = identity [] [bool] >>> identity [] [number]; game main = identity [] [];",
        Err(WireFault::WrongType(32)),
    ),
    (
        "game g = identity [bool, number] [] >>> identity [number, bool] []; game main =
identity [] [];",
        Err(WireFault::WrongType(40)),
    ),
    // A wider type isn't an equal one.
    (
        "game g = identity [0..1] [] >>> identity [0..2] []; game main = identity [] [];",
        Err(WireFault::WrongType(32)),
    ),
    (
        "game g = identity [0..1] [] >>> identity [number] []; game main = identity [] [];",
        Err(WireFault::WrongType(32)),
    ),
    (
        "game g = identity [] [0..1] >>> identity [] [number]; game main = identity [] [];",
        Err(WireFault::WrongType(32)),
    ),
    (
        "game g = identity [(0..1, bool)] [] >>> identity [(0..2, bool)] []; game main =
identity [] [];",
        Err(WireFault::WrongType(40)),
    ),
    (
        "type S = { A }; type R = { C }; game g = identity [S] [] >>> identity [R] []; game
main = identity [] [];",
        Err(WireFault::WrongType(61)),
    ),
    // Counts go before types, in both directions.
    (
        "game g = identity [bool] [] >>> identity [number] [bool]; game main = identity []
[];",
        Err(WireFault::WrongCount(32)),
    ),
    (
        "game g = identity [] [bool] >>> identity [bool] [number]; game main = identity []
[];",
        Err(WireFault::WrongCount(32)),
    ),
    (
        "game g = identity [bool] [bool] >>> identity [number] []; game main = identity []
[];",
        Err(WireFault::WrongCount(36)),
    ),
    (
        "game g = identity [bool] [bool] >>> identity [bool] [number]; game main = identity
[] [];",
        Err(WireFault::WrongType(36)),
    ),
    // Three in a row are grouped to the left, unless brackets say otherwise.
    (
        "game g = identity [bool] [] >>> identity [bool] [] >>> identity [bool] []; game main
= identity [] [];",
        Ok(()),
    ),
    (
        "game g = identity [bool] [] >>> identity [bool] [] >>> identity [] []; game main =
identity [] [];",
        Err(WireFault::WrongCount(55)),
    ),
    (
        "game g = identity [bool] [] >>> identity [] [] >>> h; game main = identity [] [];",
        Err(WireFault::WrongCount(32)),
    ),
    (
        "game g = identity [bool] [] >>> (identity [] [] >>> h); game main = identity [] [];",
        Err(WireFault::Unknown(52)),
    ),
    (
        "game g = identity [bool] [] >>> (identity [] [] >>> identity [] []); game main =
identity [] [];",
        Err(WireFault::WrongCount(33)),
    ),
    (
        "game g = identity [bool] [] >>> (identity [] [] >>> identity [bool] []); game main =
identity [] [];",
        Err(WireFault::WrongCount(52)),
    ),
    (
        "game g = identity [bool] [] >>> ((identity [number] [] >>> identity [number] []));
game main = identity [] [];",
        Err(WireFault::WrongType(34)),
    ),
    // Side by side.
    (
        "game g = identity [bool] [] &&& identity [] [bool]; game main = identity [] [];",
        Ok(()),
    ),
    (
        "game g = (identity [bool] [] &&& identity [0..1] [number]) >>> identity [bool, 0..1]
[number]; game main = identity [] [];",
        Ok(()),
    ),
    (
        "game g = (identity [bool] [] &&& identity [0..1] []) >>> identity [0..1, bool] [];
game main = identity [] [];",
        Err(WireFault::WrongType(57)),
    ),
    (
        "game g = (identity [] [bool] &&& identity [] [number]) >>> identity [] [bool,
number]; game main = identity [] [];",
        Ok(()),
    ),
    (
        "game g = (identity [] [bool] &&& identity [] [number]) >>> identity [] [number,
bool]; game main = identity [] [];",
        Err(WireFault::WrongType(59)),
    ),
    (
        "game g = identity [bool, 0..1] [number] >>> (identity [bool] [] &&& identity [0..1]
[number]); game main = identity [] [];",
        Ok(()),
    ),
    (
        "game g = identity [bool, 0..1] [] >>> (identity [0..1] [] &&& identity [bool] []);
game main = identity [] [];",
        Err(WireFault::WrongType(39)),
    ),
    (
        "game g = (identity [bool] [] &&& identity [bool] []) >>> identity [bool] []; game
main = identity [] [];",
        Err(WireFault::WrongCount(57)),
    ),
    // What stands side by side binds more tightly.
    (
        "game g = identity [bool] [] &&& identity [bool] [] >>> identity [bool, bool] [];
game main = identity [] [];",
        Ok(()),
    ),
    (
        "game g = identity [bool, bool] [] >>> identity [bool] [] &&& identity [bool] [];
game main = identity [] [];",
        Ok(()),
    ),
    (
        "game g = identity [bool] [] >>> identity [bool] [] &&& identity [bool] []; game main
= identity [] [];",
        Err(WireFault::WrongCount(32)),
    ),
    (
        "game g = identity [bool] [] &&& (identity [bool] [] >>> identity [bool, bool] []);
game main = identity [] [];",
        Err(WireFault::WrongCount(56)),
    ),
    // Calls as parts.
    (
        "game f = identity [bool] [number]; game g = f >>> f >>> f; game main = identity []
[];",
        Ok(()),
    ),
    (
        "game f = identity [bool] [number]; game g = f >>> f &&& f; game main = identity []
[];",
        Err(WireFault::WrongCount(50)),
    ),
    (
        "game f = identity [bool] []; game g = identity [] [] >>> f; game main = identity []
[];",
        Err(WireFault::WrongCount(57)),
    ),
    // Two faults in each order.
    (
        "game g = h >>> k; game main = identity [] [];",
        Err(WireFault::Unknown(9)),
    ),
    (
        "game g = identity [] [] &&& h; game main = identity [] [];",
        Err(WireFault::Unknown(28)),
    ),
    (
        "game g = h &&& identity [S] []; game main = identity [] [];",
        Err(WireFault::Unknown(9)),
    ),
    (
        "game g = identity [S] [] &&& h; game main = identity [] [];",
        Err(WireFault::Unknown(19)),
    ),
    (
        "game g = identity [bool] [] >>> h >>> identity [] []; game main = identity [] [];",
        Err(WireFault::Unknown(32)),
    ),
    (
        "game g = (identity [bool] [] >>> identity [] []) &&& h; game main = identity [] [];",
        Err(WireFault::WrongCount(33)),
    ),
    (
        "game g = h &&& (identity [bool] [] >>> identity [] []); game main = identity [] [];",
        Err(WireFault::Unknown(9)),
    ),
    (
        "game g = identity [bool] [] >>> identity [S] [bool]; game main = identity [] [];",
        Err(WireFault::Unknown(42)),
    ),
    (
        "game g = identity [bool] [] >>> identity [number] [] >>> identity [] []; game main =
identity [] [];",
        Err(WireFault::WrongType(32)),
    ),
    (
        "game g = identity [bool] [] >>> identity [] [] >>> identity [number] []; game main =
identity [] [];",
        Err(WireFault::WrongCount(32)),
    ),
];

#[test]
fn compositions(rt: HostRuntime) {
    check_all(&rt, rt.alloc(), COMPOSITIONS);
}
