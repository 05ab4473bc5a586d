use og_list::List;

/// A small game, as it is written. Names and agents are the bytes of their ASCII text, an agent's
/// without its quotes.
#[derive(Debug, Drop)]
pub struct SmallGame {
    /// The types, whose cases are what the decisions are among.
    pub types: List<TypeDecl>,
    /// The decisions, in order.
    pub lines: List<Line>,
}

/// `type NAME = { CASE, CASE, .. };`
#[derive(Debug, Drop)]
pub struct TypeDecl {
    pub name: List<u8>,
    pub cases: List<List<u8>>,
}

/// A decision of `agent` among the cases of the type `action`, whose outcome stands under the name
/// `output`, and which is paid by a table.
#[derive(Debug, Drop)]
pub struct Line {
    pub agent: List<u8>,
    /// The name of the type whose cases may be chosen.
    pub action: List<u8>,
    pub output: List<u8>,
    /// The columns of the table.
    pub keys: List<Key>,
    pub rows: List<Row>,
}

/// `OUTPUT : TYPE`, a column of a table.
#[derive(Debug, Drop)]
pub struct Key {
    /// The output of the line whose choice the column has.
    pub output: List<u8>,
    /// That line's type.
    pub action: List<u8>,
}

/// `(CASE, CASE, ..) -> NUMBER;`, a row of a table.
#[derive(Debug, Drop)]
pub struct Row {
    /// For each key the case that is to be chosen there.
    pub cases: List<List<u8>>,
    /// What the line's agent is paid where just these are chosen, without a unit.
    pub pay: u64,
}

/// `strategy "AGENT" { () -> CASE; }`, what the decision at this section's place chooses.
#[derive(Debug, Drop)]
pub struct Section {
    pub agent: List<u8>,
    /// A case of the decision's type.
    pub choice: List<u8>,
}
