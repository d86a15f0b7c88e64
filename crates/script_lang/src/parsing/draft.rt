ghost use Rattle.std.specs.Prelude.{◌≡◌, Some};
ghost use Rattle.script_lang.specs.Draft.{shorter};

use super::name_table::NameTable;
use super::start_rows::MAX_ENTRIES;
use crate::{Line, Mode, RunLine, Script, Series, SessionPlan, Start};
use folder_disk::{MainRead, Planned};
use prefs_text::Names;
use script_words::is_reserved;
use shelf::PlannedDeath;
use std::alloc::{AllocError, Global};
use store_traits::NodeId;

/// The script that lines make, as far as they are read, and by which command.
#[derive(Drop)]
pub struct Draft {
    pub(crate) mode: Mode,
    pub(crate) nodes: NameTable,
    pub(crate) clients: NameTable,
    /// The node of each client.
    pub(crate) homes: Series<NodeId>,
    /// None before a line says it.
    pub(crate) file: Option<MainRead>,
    /// None before a line says it.
    pub(crate) entries: Option<u64>,
    pub(crate) faults: Series<Planned>,
    /// None before a line says it.
    pub(crate) fuse: Option<u64>,
    pub(crate) deaths: Series<PlannedDeath>,
    pub(crate) lines: Series<RunLine>,
    /// Whether no `node` and no `client` line may follow.
    pub(crate) is_closed: bool,
}

impl Draft {
    ghost use Rattle.std.specs.Prelude.{◌≡◌, ◌↔◌, ◌||◌, [], IsTrue, IfOk};
    ghost use Rattle.script_lang.specs.declared.plan.mode.Mode.TheVariants.{Nodes};
    ghost use Rattle.script_lang.specs.Draft.{draft_of};
    ghost use Rattle.script_lang.specs.Faults.{IsTaken, BarsFile, BarsHistory, FollowsOther, follows_node};
    ghost use Rattle.script_lang.specs.Growth.{HasPlace, draft_with};
    ghost use Rattle.script_lang.specs.Meaning.{script_of};

    pub(crate) fn new(alloc: Global, mode: Mode) -> Draft
        ensures { result ≡ draft_of mode [] }
    {
        Draft {
            mode,
            nodes: NameTable::new(alloc),
            clients: NameTable::new(alloc),
            homes: Series::new(alloc),
            file: None,
            entries: None,
            faults: Series::new(alloc),
            fuse: None,
            deaths: Series::new(alloc),
            lines: Series::new(alloc),
            is_closed: false,
        }
    }

    /// Whether nothing can be named so, or something is.
    pub(crate) fn is_taken(&self, name: &str) -> bool
        ensures { IsTrue result ↔ IsTaken self.now name.now }
    {
        is_reserved(name) || self.nodes.contains(name) || self.clients.contains(name)
    }

    /// Whether a `file` line may not stand behind this.
    pub(crate) fn bars_file(&self) -> bool
        ensures { IsTrue result ↔ BarsFile self.now }
    {
        self.mode == Mode::Nodes || self.follows_node() || self.file.is_some()
    }

    /// Whether a `history` line may not stand behind this.
    pub(crate) fn bars_history(&self) -> bool
        ensures { IsTrue result ↔ BarsHistory self.now }
    {
        self.follows_node() || self.entries.is_some()
    }

    /// Whether a node is declared.
    fn follows_node(&self) -> bool
        ensures { result ≡ follows_node self.now }
    {
        self.nodes.len() > 0
    }

    /// Whether a line of another sort than `node` and `client` stands behind a node.
    pub(crate) fn follows_other(&self) -> bool
        ensures { IsTrue result ↔ FollowsOther self.now }
    {
        self.is_closed
    }

    /// Whether no call of the folder can be planned to fail, and no node to die.
    pub(crate) fn bars_faults(&self) -> bool
        ensures { IsTrue result ↔ self.now.mode ≡ Nodes }
    {
        self.mode == Mode::Nodes
    }

    /// Whether a line of another sort than those that declare bars later `node` and `client` lines.
    fn closes_now(&self) -> bool
        ensures { result ≡ (self.now.is_closed || follows_node self.now) }
    {
        self.is_closed || self.follows_node()
    }

    /// The draft with what one line more says.
    pub(crate) fn with(self, alloc: Global, line: Line) -> Result<Draft, AllocError>
        requires { HasPlace self line }
        ensures { IfOk result (λ draft. draft ≡ draft_with self line) }
    {
        let closed = self.closes_now();
        let Draft {
            mode,
            mut nodes,
            mut clients,
            mut homes,
            mut file,
            mut entries,
            mut faults,
            mut fuse,
            mut deaths,
            mut lines,
            mut is_closed,
        } = self;
        match line {
            Line::Nothing => {}
            Line::File(main) => file = Some(main),
            Line::History(most) => entries = Some(most),
            Line::Node(name) => nodes = nodes.with(alloc, name)?,
            Line::Client(name, home) => {
                clients = clients.with(alloc, name)?;
                homes.push(home)?;
            }
            Line::Fault(planned) => {
                faults.push(planned)?;
                is_closed = closed;
            }
            Line::Fuse(left) => {
                fuse = Some(shorter_of(fuse, left));
                is_closed = closed;
            }
            Line::Die(death) => {
                deaths.push(death)?;
                is_closed = closed;
            }
            Line::Run(line) => {
                lines.push(line)?;
                is_closed = closed;
            }
        }
        Ok(Draft {
            mode,
            nodes,
            clients,
            homes,
            file,
            entries,
            faults,
            fuse,
            deaths,
            lines,
            is_closed,
        })
    }

    /// The script that the lines make, all in one session.
    pub(crate) fn into_script(self, alloc: Global) -> Result<Script, AllocError>
        ensures { IfOk result (λ script. script ≡ script_of self) }
    {
        let plan = SessionPlan {
            folder_faults: self.faults,
            fuse: self.fuse,
            deaths: self.deaths,
            lines: self.lines,
            stop: None,
        };
        let sessions = vec![in alloc; plan]?;
        Ok(Script {
            names: Names {
                nodes: self.nodes.into_list(),
                clients: self.clients.into_list(),
            },
            homes: self.homes,
            start: Start {
                file: self.file.unwrap_or(MainRead::Absent),
                entries: self.entries.unwrap_or(MAX_ENTRIES),
                replace: false,
            },
            sessions: Series::from_vec(sessions),
        })
    }
}

/// Of the fuses the one that is used up first.
fn shorter_of(other: Option<u64>, left: u64) -> u64
    ensures { Some result ≡ shorter other left }
{
    match other {
        Some(other) => other.min(left),
        None => left,
    }
}
