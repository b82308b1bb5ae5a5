//! The reading of a table.
ghost use Rattle.std.specs.Prelude.{◌≡◌, ◌<◌, ◌^◌, ℕ, Some, length, map, IfOk};
ghost use Rattle.line_instance.specs.Line.{Line};
ghost use Rattle.line_instance.specs.Made.{AreTimes};
ghost use Rattle.line_instance.specs.Walks.{AreArcs, ArePairs, at};
ghost use Rattle.task_names.specs.TaskNames.{name_at};
ghost use Rattle.task_table.specs.Marks.{table_mark};
ghost use Rattle.task_table.specs.Records.{table_records};
ghost use Rattle.task_table.specs.Tables.{IsSheetOf, IsTableRead, IsWellFormed};
ghost use Rattle.task_table.specs.inner.Building.{IsLinked, IsReadAs, stopped};
ghost use Rattle.task_table.specs.declared.fault.TableFault.{TableFault as Fault};

use crate::fault::TableFault;
use crate::links::{Links, links_of};
use crate::lookup::Lookup;
use crate::mark::has_bom;
use crate::stop::Stop;
use crate::tasks::{Tasks, tasks_of};
use line_instance::{Instance, Made, Prec, Ring, make};
use std::alloc::{AllocError, Global};
use task_names::Names;

/// What a table says.
#[derive(Drop)]
pub struct Table {
    /// The instance, with the tasks that the table says are apart.
    pub inst: Instance,
    /// The names of the tasks, each once.
    pub names: Names,
    /// The mark between its fields: a comma, a semicolon or a tab.
    pub mark: u8,
    /// Whether a byte-order mark stands before it.
    pub bom: bool,
    /// The pairs of tasks that are apart, as they are listed.
    pub pairs: Vec<Prec>,
    /// The number of the first record that lists one, counted from 1.
    pub pairs_at: Option<u64>,
}

/// What reading a table answers.
#[derive(Drop)]
pub enum TableRead {
    /// What the table says.
    Good(Table),
    /// The first fault.
    Fault(TableFault),
    /// Out of memory.
    NoMemory,
}

/// Reads a table: comma-separated values, or with another mark between the fields, with a heading and a record for each
/// task: its name, its time, and the names of the tasks directly before it and of those that may not share its station,
/// with semicolons between them. The mark is that of `table_mark`.
pub fn read_table(alloc: Global, bytes: &[u8], mark: u8) -> TableRead
    requires mark { table_mark bytes.now ≡ Some mark }
    requires length { length bytes.now < 2 ^ 63 }
    ensures read { IsTableRead mark bytes.now result }
    ensures right { IsWellFormed result }
    ensures none { (f : Fault) → result ≡ TableRead.Fault f → (line : Line)
        → ¬ IsSheetOf (table_records mark bytes.now) line }
{
    match table_of(alloc, bytes, mark) {
        Ok(table) => TableRead::Good(table),
        Err(stop) => stopped(stop),
    }
}

/// What an early end answers.
fn stopped(stop: Stop) -> TableRead
    ensures { result ≡ stopped stop }
{
    match stop {
        Stop::Memory => TableRead::NoMemory,
        Stop::Fault(fault) => TableRead::Fault(fault),
    }
}

/// The names of the tasks of a ring.
fn ring_names(alloc: Global, names: &Names, ring: &Ring) -> Result<Names, AllocError>
    requires { (k : ℕ) → k < length ring.now → at ring.now k < length names.now }
    ensures { IfOk result (λ found. found ≡ map (name_at names.now) ring.now) }
{
    let mut found = Names::new(alloc);
    for k in 0..ring.len() {
        found.push(names.copy_of(alloc, ring.at(k) as usize)?)?;
    }
    Ok(found)
}

/// The instance of tasks with these times and names, and of their links.
fn instance_of(
    alloc: Global,
    times: Vec<u64>,
    names: &Names,
    links: &Links,
) -> Result<Instance, Stop>
    requires times { AreTimes times.items }
    requires many { length names.now ≡ length times.items }
    requires arcs { AreArcs (length times.items) links.now.arcs }
    requires pairs { ArePairs (length times.items) links.now.pairs }
    ensures { IsLinked times.items names.now links.now result }
{
    match make(alloc, times, &links.arcs) {
        Made::Good(instance) => {
            let mut apart = instance;
            apart.set_apart(&links.pairs);
            Ok(apart)
        }
        Made::Cycle(ring) => Err(Stop::Fault(TableFault::Cycle(ring_names(alloc, names, &ring)?))),
        Made::NoMemory => Err(Stop::Memory),
        _ => unreachable!(),
    }
}

/// Reads a table, or tells why not.
fn table_of(alloc: Global, bytes: &[u8], mark: u8) -> Result<Table, Stop>
    ensures { IsReadAs mark bytes.now result }
{
    let Tasks {
        names,
        times,
        lists,
    } = tasks_of(alloc, bytes, mark)?;
    let lookup = Lookup::new(alloc, names)?;
    let links = links_of(alloc, &lookup, &lists)?;
    let names = lookup.into_names();
    let inst = instance_of(alloc, times, &names, &links)?;
    let Links {
        arcs: _,
        pairs,
        pairs_at,
    } = links;
    Ok(Table {
        inst,
        names,
        mark,
        bom: has_bom(bytes),
        pairs,
        pairs_at,
    })
}
