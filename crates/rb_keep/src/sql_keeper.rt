ghost use Rattle.rb_causes.specs.Causes.{HasTrouble, Rose};
ghost use Rattle.std.specs.Prelude.{◌≡◌, ◌≤◌, [], None, IfOk};

use crate::appending::{append, cut_behind};
use crate::mem_sql_keeper::MemSqlKeeper;
use crate::reading::settled_rows;
use crate::refusal::Refusal;
use rb_causes::{Keeper, NoMemory, Row, Text, Trouble};
use sqlite::{Connection, File, FileStore};
use std::alloc::Global;
use std::io::Eprint;
use std::marker::Model;

/// A keeper over a file, which contracts see as its count of faults. The file is opened at the
/// first call and stays open; a call that is refused lets it go, and the next opens it anew.
#[derive(Drop)]
pub struct SqlKeeper {
    rt: HostRuntime,
    path: Text,
    conn: Option<Connection<FileStore<File>>>,
    /// The number of the last row that is known to be kept, once the rows were read.
    last: Option<i64>,
    faults: u64,
}

impl Model for SqlKeeper {
    ghost use Rattle.std.specs.Prelude.{ℕ};

    ghost Value = { ℕ };

    ghost view = { λ k. k.faults };
}

impl SqlKeeper {
    /// A keeper over the file of this path. It takes no memory, and opens nothing yet.
    pub fn at(rt: HostRuntime, path: Text) -> SqlKeeper
        ensures { result ≡ 0 }
    {
        SqlKeeper {
            rt,
            path,
            conn: None,
            last: None,
            faults: 0,
        }
    }

    /// A keeper over a database in memory.
    pub fn in_memory(alloc: Global) -> Result<MemSqlKeeper, NoMemory>
        ensures { IfOk result (λ keeper. (keeper.faults ≡ 0) × (keeper.rows ≡ [])) }
    {
        MemSqlKeeper::new(alloc)
    }

    fn opened(&self) -> Result<Connection<FileStore<File>>, Refusal> {
        Ok(Connection::open(&self.rt, self.path.as_str())?)
    }

    /// Takes the open file out. Where the last call was refused it is opened anew, and what that
    /// call may have left behind the last row is taken away.
    fn taken(&mut self, last: i64) -> Result<Connection<FileStore<File>>, Refusal>
        ensures { self.new ≡ self.old }
    {
        if let Some(conn) = self.conn.take() {
            return Ok(conn);
        }
        let mut conn = self.opened()?;
        cut_behind(&mut conn, last)?;
        Ok(conn)
    }

    /// The open file, behind whose last row nothing stands once its rows were read.
    fn ready(&mut self) -> Result<Connection<FileStore<File>>, Refusal>
        ensures { self.new ≡ self.old }
    {
        match self.last {
            Some(last) => self.taken(last),
            None => self.opened(),
        }
    }

    fn all(&mut self, alloc: Global) -> Result<Vec<Row>, Refusal>
        ensures { self.new ≡ self.old }
    {
        let mut conn = self.ready()?;
        let rows = settled_rows(alloc, &mut conn)?;
        self.last = i64::try_from(rows.len()).ok();
        self.conn = Some(conn);
        Ok(rows)
    }

    /// The number of the last row that is kept; the rows are read for it where they never were.
    fn last_row(&mut self) -> Result<Option<i64>, Refusal>
        ensures { self.new ≡ self.old }
    {
        if self.last.is_none() {
            let alloc = self.rt.alloc();
            self.all(alloc)?;
        }
        Ok(self.last)
    }

    fn add(&mut self, more: &[Row]) -> Result<(), Refusal>
        ensures { self.new ≡ self.old }
    {
        let Some(last) = self.last_row()? else {
            return Ok(());
        };
        let mut conn = self.taken(last)?;
        self.last = Some(append(&mut conn, last, more)?);
        self.conn = Some(conn);
        Ok(())
    }

    /// Tells a refusal, and counts it where it is no want of memory.
    fn blame(&mut self, refusal: Refusal) -> Trouble
        ensures later { self.old ≤ self.new }
        ensures rose { result ≡ Trouble.Failed → Rose self.old self.new }
        ensures steady { result ≡ Trouble.NoMemory → self.new ≡ self.old }
    {
        let trouble = refusal.trouble();
        if trouble == Trouble::Failed {
            let path = self.path.as_str();
            let _told = eprintln!(self.rt; "rundeskd: {path}: {refusal}");
            self.faults = self.faults.saturating_add(1);
        }
        trouble
    }
}

impl Keeper for SqlKeeper {
    ghost rows = { λ _. None };

    ghost faults = { λ k. k };

    fn rows(&mut self, alloc: Global) -> Result<Vec<Row>, Trouble> {
        match self.all(alloc) {
            Ok(rows) => Ok(rows),
            Err(refusal) => Err(self.blame(refusal)),
        }
    }

    fn append(&mut self, more: &[Row]) -> Result<(), Trouble> {
        match self.add(more) {
            Ok(()) => Ok(()),
            Err(refusal) => Err(self.blame(refusal)),
        }
    }
}
