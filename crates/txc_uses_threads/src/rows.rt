//! Calls of all these libraries over new histories: the database's, that of a node, and that of a node which
//! stores none.
ghost use Rattle.std.specs.Prelude.{◌≡◌, [], length, vec_len, IfOk};
ghost use Rattle.txc_stream.specs.Names.{stored, unstored};

use crate::clients::{client, pages, update};
use crate::databases::{ask, commit, feed, retire, stick};
use crate::nodes::step;
use anyhow::Result;
use std::alloc::Global;
use std::marker::Brand;
use std::sync::Wait;
use txc_cushion::Pincushion;
use txc_db::{Database, DbCore, Naming};
use txc_node::Record;
use txc_shared::{NodeSettings, SharedNode};
use txc_site::Plan;
use txc_stream::{AppendToken, EventRow};
use txcache_functions::Program;

const SETTINGS: NodeSettings = NodeSettings {
    number: 0,
    capacity: 64,
    recent: 16,
};

/// The settings of the node whose history is not stored.
const OTHERS: NodeSettings = NodeSettings {
    number: 1,
    capacity: 64,
    recent: 16,
};

/// Returns `true` if a site may be made by the default plan.
pub fn plan() -> bool {
    Plan::DEFAULT.is_sound()
}

/// Makes the calls that need only the database and its pincushion.
fn by_calls<J: Naming>(
    rt: &impl Wait,
    alloc: Global,
    database: &Database<J>,
    cushion: &Pincushion<J>,
) -> Result<usize> {
    let asked = ask(rt, alloc, database)?.max(commit(rt, alloc, database)?);
    let stuck = stick(rt, alloc, database, cushion)?.max(retire(rt, alloc, database)?);
    let fed = feed(rt, database)?.max(update(rt, alloc, database)?);
    Ok(asked.max(stuck).max(fed))
}

/// Makes a node whose records this log stores, and one whose records are ghost: `pen` appends them.
fn nodes<J: Naming>(
    rt: &impl Wait,
    alloc: Global,
    database: &Database<J>,
    row: EventRow<Record>,
    pen: AppendToken<Record>,
) -> Result<Vec<SharedNode<Program, J>>>
    requires one { stored row ≡ J.node_histories 0 }
    requires other { unstored pen.number ≡ J.node_histories 1 }
    requires none { pen.list ≡ [] }
    ensures { IfOk result (λ nodes. vec_len nodes ≡ 2) }
{
    let mut nodes = Vec::new(alloc);
    nodes.push(SharedNode::new(rt, alloc, SETTINGS, row, database)?)?;
    nodes.push(SharedNode::unstored(rt, alloc, OTHERS, pen, database)?)?;
    Ok(nodes)
}

/// Makes the calls of the database, and of a pincushion and nodes of it.
fn over_database<J: Naming, R: Wait>(
    rt: &R,
    alloc: Global,
    database: &Database<J>,
    row: EventRow<Record>,
    pen: AppendToken<Record>,
) -> Result<usize>
    requires one { stored row ≡ J.node_histories 0 }
    requires other { unstored pen.number ≡ J.node_histories 1 }
    requires none { pen.list ≡ [] }
{
    let nodes = nodes(rt, alloc, database, row, pen)?;
    let cushion = Pincushion::new(alloc, database)?;
    let called = by_calls(rt, alloc, database, &cushion)?;
    let stepped = step(rt, alloc, &nodes[0])?.max(step(rt, alloc, &nodes[1])?);
    let shown = pages(rt, alloc, client(rt, alloc, database, &cushion, &nodes)?)?;
    Ok(called.max(stepped).max(shown))
}

/// Makes all calls over these histories.
fn over_histories<J: Naming, R: Wait>(
    rt: &R,
    alloc: Global,
    core: DbCore,
    row: EventRow<Record>,
    pen: AppendToken<Record>,
) -> Result<(DbCore, usize)>
    requires database { core.events ≡ J.database_history }
    requires one { stored row ≡ J.node_histories 0 }
    requires other { unstored pen.number ≡ J.node_histories 1 }
    requires none { pen.list ≡ [] }
{
    let database = Database::<J>::new(alloc, core)?;
    let done = over_database(rt, alloc, &database, row, pen)?;
    Ok((database.into_core(), done))
}

/// Makes all calls over new histories.
pub fn over_new_histories<R: Wait>(rt: &R, alloc: Global) -> Result<(DbCore, usize)> {
    let core = DbCore::new(alloc, 16)?;
    let row = EventRow::new(alloc, 64)?;
    over_histories::<Brand, R>(rt, alloc, core, row, AppendToken::new())
}
