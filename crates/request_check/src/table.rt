// What the codes of a request come to on a card. Each code is looked up once.
ghost use Rattle.std.specs.Prelude.{◌≡◌};
ghost use Rattle.request_check.specs.Row.{no_row, row_by, row_of, row_table};

use byte_parts::spans;
use card_nodes::find;
use card_nodes::node::{Entry, Node};
use service_code::code::{ServiceAttribute, ServiceCode};
use service_code::limit::Limit;

// What a code comes to: its attribute and, where the card has that service, its store and limit. `found` stands beside them, and is no
// Option: clauses of `request_rules` and `request_runs`, and laws, name the start and the blocks of a row as they stand.
#[derive(Clone, Copy)]
pub struct Row {
    pub code: u16,
    pub attribute: Option<ServiceAttribute>,
    pub found: bool,
    pub start: u16,
    pub blocks: u16,
    pub limit: Option<Limit>,
}

// The rows of a request's codes, of sixteen the first `count`.
#[derive(Clone, Copy)]
pub struct Table {
    pub rows: [Row; 16],
    pub count: usize,
}

// Gives the row that stands where there is no code.
fn no_row() -> Row
    ensures { result ≡ no_row }
{
    Row {
        code: 0,
        attribute: None,
        found: false,
        start: 0,
        blocks: 0,
        limit: None,
    }
}

// Makes the row of a code whose first service has this entry. An area's entry stands for no service.
fn row_by(code: u16, entry: Entry) -> Row
    ensures { result ≡ row_by code entry }
{
    let attribute = ServiceCode(code).attribute();
    match entry {
        Entry::Area { end: _ } => Row {
            code,
            attribute,
            found: false,
            start: 0,
            blocks: 0,
            limit: None,
        },
        Entry::Service {
            start,
            blocks,
            limit,
        } => Row {
            code,
            attribute,
            found: true,
            start,
            blocks,
            limit,
        },
    }
}

// Gives the row of a code that is no service's.
fn unknown_row(code: u16) -> Row
    ensures { result ≡ row_by code (Entry.Area 0) }
{
    row_by(code, Entry::Area { end: 0 })
}

// Looks a code up among nodes: its row is that of the first service of the code.
pub fn row_of(nodes: &[Node], code: u16) -> Row
    ensures { result ≡ row_of nodes.now code }
{
    match find::find_service(nodes, code) {
        Some(i) => row_by(code, nodes[i].entry),
        None => unknown_row(code),
    }
}

// Looks the first sixteen codes up, each once.
pub fn table_of(nodes: &[Node], codes: &[u16]) -> Table
    ensures { result ≡ row_table nodes.now codes.now }
{
    let none = no_row();
    let mut rows = [none; 16];
    let n = spans::least(codes.len(), 16);
    for i in 0..n {
        rows[i] = row_of(nodes, codes[i]);
    }
    Table { rows, count: n }
}
