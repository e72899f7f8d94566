//! One row of a log as the table has it.
ghost use Rattle.rb_keep.specs.Tables.{given_with, row_in};
ghost use Rattle.sqlite.specs.Order.{column};
ghost use Rattle.sqlite.specs.Values.{bound};
ghost use Rattle.sqlite.specs.declared.types.Value.TheVariants.{Blob, Int};
ghost use Rattle.std.specs.Prelude.{◌≡◌, pos, IfOk, IfSome};

use crate::refusal::Refusal;
use rb_causes::{Row, Text};
use sqlite::types::ValueRef;
use sqlite::{Error, ErrorCode, Row as Stored};

/// The numbers of an entry that are a row's or its place.
#[derive(Clone, Copy, Debug)]
pub(crate) struct Numbers {
    seq: i64,
    a: i64,
    b: i64,
    c: i64,
}

/// The numbers of a row as the table holds them.
pub(crate) fn numbers_of(seq: i64, row: &Row) -> Result<Numbers, Refusal>
    ensures { IfOk result (λ n. n ≡
        record { seq = seq; a = pos row.now.a; b = pos row.now.b; c = pos row.now.c }) }
{
    Ok(Numbers {
        seq,
        a: held(row.a)?,
        b: held(row.b)?,
        c: held(row.c)?,
    })
}

fn held(number: u64) -> Result<i64, Refusal>
    ensures { IfOk result (λ n. n ≡ pos number) }
{
    i64::try_from(number).map_err(|_| Refusal::Number)
}

/// What an insert is given, in the order of the columns.
pub(crate) fn given<'r>(numbers: Numbers, row: &'r Row) -> [ValueRef<'r>; 9]
    ensures { bound result ≡ given_with numbers.seq numbers.a numbers.b numbers.c row.now }
{
    [
        ValueRef::Int(numbers.seq),
        ValueRef::Int(i64::from(row.kind)),
        ValueRef::Int(row.at),
        ValueRef::Int(numbers.a),
        ValueRef::Int(numbers.b),
        ValueRef::Int(numbers.c),
        ValueRef::Blob(row.name.as_str().as_bytes()),
        ValueRef::Blob(row.who.as_str().as_bytes()),
        ValueRef::Blob(row.body.as_str().as_bytes()),
    ]
}

/// The row that is stored under this number, which it has to have.
pub(crate) fn read_row(stored: &Stored, seq: u64) -> Result<Row, Refusal>
    ensures { IfOk result (λ row. row ≡ row_in stored.now) }
{
    match row_of(stored, seq) {
        Ok(Some(row)) => Ok(row),
        Err(Error::SqliteFailure(ErrorCode::OutOfMemory)) => {
            Err(Refusal::Database(Error::SqliteFailure(ErrorCode::OutOfMemory)))
        }
        // A value of another class than its column's is no row's, either.
        Ok(None) => Err(Refusal::Entry(seq)),
        Err(_) => Err(Refusal::Entry(seq)),
    }
}

fn row_of(stored: &Stored, seq: u64) -> Result<Option<Row>, Error>
    ensures { IfOk result (λ found. IfSome found (λ row. row ≡ row_in stored.now)) }
{
    if stored.get::<u64>(0)? != seq {
        return Ok(None);
    }
    let Some(kind) = kind(stored)? else {
        return Ok(None);
    };
    let at = stored.get(2)?;
    let (a, b, c) = (stored.get(3)?, stored.get(4)?, stored.get(5)?);
    let Some(texts) = texts_of(stored)? else {
        return Ok(None);
    };
    let Texts { name, who, body } = texts;
    Ok(Some(Row {
        kind,
        at,
        a,
        b,
        c,
        name,
        who,
        body,
    }))
}

fn kind(stored: &Stored) -> Result<Option<u8>, Error>
    ensures { IfOk result (λ found. IfSome found (λ n. column stored.now 1 ≡ Int (pos n))) }
{
    let kind: u64 = stored.get(1)?;
    Ok(u8::try_from(kind).ok())
}

/// The texts of a row.
#[derive(Drop)]
struct Texts {
    name: Text,
    who: Text,
    body: Text,
}

fn texts_of(stored: &Stored) -> Result<Option<Texts>, Error>
    ensures { IfOk result (λ found. IfSome found (λ it. (column stored.now 6 ≡ Blob it.name)
        × (column stored.now 7 ≡ Blob it.who) × (column stored.now 8 ≡ Blob it.body))) }
{
    let Some(name) = text(stored, 6)? else {
        return Ok(None);
    };
    let Some(who) = text(stored, 7)? else {
        return Ok(None);
    };
    let Some(body) = text(stored, 8)? else {
        return Ok(None);
    };
    Ok(Some(Texts { name, who, body }))
}

fn text(stored: &Stored, at: usize) -> Result<Option<Text>, Error>
    ensures { IfOk result (λ found. IfSome found (λ it. column stored.now at ≡ Blob it)) }
{
    let bytes: Vec<u8> = stored.get(at)?;
    match String::from_utf8(bytes) {
        Ok(text) => Ok(Some(Text::from_string(text))),
        Err(_) => Ok(None),
    }
}
