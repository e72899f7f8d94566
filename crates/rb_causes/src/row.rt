ghost use Rattle.std.specs.Prelude.{◌≡◌, ◌++◌, IfOk, OnOk, OnErr};

use crate::text::Text;
use crate::trouble::NoMemory;
use std::alloc::Global;

/// One entry of a log. What its numbers and texts mean depends on its kind; those that a kind does
/// not use are 0 and empty. Its numbers are below 2^63.
#[derive(Debug, Drop)]
pub struct Row {
    pub kind: u8,
    /// Seconds since 1970.
    pub at: i64,
    pub a: u64,
    pub b: u64,
    pub c: u64,
    pub name: Text,
    pub who: Text,
    pub body: Text,
}

impl Row {
    /// A copy of this row.
    pub fn copy(&self, alloc: Global) -> Result<Row, NoMemory>
        ensures { IfOk result (λ row. row ≡ self.now) }
    {
        Ok(Row {
            kind: self.kind,
            at: self.at,
            a: self.a,
            b: self.b,
            c: self.c,
            name: self.name.copy(alloc)?,
            who: self.who.copy(alloc)?,
            body: self.body.copy(alloc)?,
        })
    }
}

/// Copies of these rows, in order.
pub(crate) fn copy_rows(alloc: Global, rows: &[Row]) -> Result<Vec<Row>, NoMemory>
    ensures { IfOk result (λ copies. copies.items ≡ rows.now) }
{
    let mut copies = Vec::new(alloc);
    for row in rows {
        copies.push(row.copy(alloc)?)?;
    }
    Ok(copies)
}

/// Adds copies of all of these rows, or none where memory is wanting.
pub(crate) fn add_rows(alloc: Global, rows: &mut Vec<Row>, more: &[Row]) -> Result<(), NoMemory>
    ensures ok { OnOk result (rows.new.items ≡ rows.old.items ++ more.now) }
    ensures err { OnErr result (rows.new.items ≡ rows.old.items) }
{
    let mut copies = copy_rows(alloc, more)?;
    rows.append(&mut copies)?;
    Ok(())
}
