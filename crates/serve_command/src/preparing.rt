//! What a run to serve begins with: its files, and the first metric that they make.

ghost use Rattle.std.specs.Prelude.{◌≡◌, ◌∷◌, [], ◌++◌, codes, IfErr, IfOk, Ok};
ghost use Rattle.std.specs.Arc.{arc_value};
ghost use Rattle.std.specs.Fmt.{decimal};
ghost use Rattle.command_words.specs.Commands.{serving_seen};
ghost use Rattle.control_port.specs.Controlling.{AreRowsOf, IsOn};
ghost use Rattle.map_loading.specs.Loading.{load_of};
ghost use Rattle.metric_publish.specs.History.{entry};
ghost use Rattle.program_ends.specs.FileReads.{IsLeft};
ghost use Rattle.serve_command.specs.InnerEnds.{IsFirstMetric, IsRowFault, IsStartFault};
ghost use Rattle.serve_command.specs.Start.{IsOpening, IsStartRead, names_in, row_line, start_bytes};
ghost use Rattle.snap_index.specs.Ends.{all_ends};

use command_words::ServeWords;
use control_port::{TrafficRows, base_of_rows, file_text, kind_text, rows_of_files};
use customized::{Metric, Roads};
use edge_graph::Network;
use map_loading::{LoadFault, load};
use program_ends::{Unread, read_both, read_named};
use road_base::Text;
use road_io::Files;
use snap_index::Grid;
use std::alloc::{AllocError, Global};
use std::sync::Arc;
use std::thread::Threads;
use traffic_files::{RowFault, TrafficFault};

/// The bytes of the files of the words; of a file that is not named there are none.
#[derive(Drop)]
pub struct StartFiles {
    pub map: Vec<u8>,
    pub settings: Vec<u8>,
    pub speeds: Vec<u8>,
    pub turns: Vec<u8>,
}

/// Reads the files of the words: map, settings, speeds, turns.
pub fn read_start<'a, F: Files>(
    alloc: Global,
    what: &ServeWords<'a>,
    files: &mut F,
) -> Result<StartFiles, Unread<'a>>
    ensures read { IfOk result (λ s. IsStartRead (F.view files.old) (F.view files.new) (serving_seen what.now) (start_bytes s.map.items s.settings.items s.speeds.items s.turns.items)) }
    ensures unread { IfErr result (λ u. IsLeft (F.view files.old) (F.view files.new) (names_in (serving_seen what.now)) u.name.now u.fault) }
{
    match read_both(alloc, what.map, what.settings, files) {
        Ok((map, settings)) => match read_named(alloc, what.speeds, files) {
            Ok(speeds) => match read_named(alloc, what.turns, files) {
                Ok(turns) => Ok(StartFiles {
                    map,
                    settings,
                    speeds,
                    turns,
                }),
                Err(unread) => Err(unread),
            },
            Err(unread) => Err(unread),
        },
        Err(unread) => Err(unread),
    }
}

// The line on which a faulty row is refused.
fn row_refusal(alloc: Global, fault: RowFault) -> Result<Text, AllocError>
    ensures { IfOk result (λ text. text ≡ row_line fault) }
{
    let (file, row, kind) = (file_text(fault.file), fault.row, kind_text(fault.kind));
    Ok(Text::of(format!(in alloc; "{file} row {row} {kind}\n")?))
}

// The rows of the start, or why there are none.
fn start_rows(alloc: Global, speeds: &[u8], turns: &[u8]) -> Result<TrafficRows, LoadFault>
    ensures rows { IfOk result (λ rows. AreRowsOf speeds.now turns.now rows) }
    ensures fault { IfErr result (IsRowFault speeds.now turns.now) }
{
    match rows_of_files(alloc, speeds, turns) {
        Ok(rows) => Ok(rows),
        Err(TrafficFault::Row(fault)) => Err(LoadFault::Refused(row_refusal(alloc, fault)?)),
        Err(TrafficFault::Memory) => Err(LoadFault::Memory),
    }
}

/// A road network cut into cells, where its segments lie, and its first metric.
#[derive(Drop)]
pub struct Start {
    pub roads: Roads,
    pub grid: Grid,
    pub metric: Arc<Metric>,
}

// A metric that a board may share.
fn shared(alloc: Global, metric: Metric) -> Result<Arc<Metric>, AllocError>
    ensures { IfOk result (λ shared. arc_value shared ≡ metric) }
{
    Ok(Arc::new(alloc, metric)?)
}

// The start of a network under the rows of two files.
fn start_of<R: Threads + Sync>(
    rt: &R,
    alloc: Global,
    network: Network,
    speeds: &[u8],
    turns: &[u8],
) -> Result<Start, LoadFault>
    ensures network { IfOk result (λ s. s.roads.network ≡ network) }
    ensures grid { IfOk result (λ s. s.grid ≡ all_ends s.roads.network.segments) }
    ensures metric { IfOk result (λ s. IsFirstMetric s.roads speeds.now turns.now (arc_value s.metric)) }
    ensures on { IfOk result (λ s. IsOn s.roads (arc_value s.metric)) }
    ensures fault { IfErr result (IsRowFault speeds.now turns.now) }
{
    let rows = start_rows(alloc, speeds, turns)?;
    let roads = Roads::for_server(alloc, network)?;
    let base = base_of_rows(alloc, &roads, rows)?;
    let grid = Grid::of(alloc, roads.network())?;
    let metric = Metric::make(rt, alloc, &roads, base)?;
    let metric = shared(alloc, metric)?;
    Ok(Start {
        roads,
        grid,
        metric,
    })
}

/// The start that these files make, or why there is none: first map, settings and limits are judged, then the rows.
pub fn prepare<R: Threads + Sync>(
    rt: &R,
    alloc: Global,
    map: Vec<u8>,
    settings: &[u8],
    speeds: &[u8],
    turns: &[u8],
) -> Result<Start, LoadFault>
    ensures opening { IfOk result (λ s. IsOpening (start_bytes map.items settings.now speeds.now turns.now) s.roads (entry 0 (arc_value s.metric) ∷ [])) }
    ensures on { IfOk result (λ s. IsOn s.roads (arc_value s.metric)) }
    ensures grid { IfOk result (λ s. s.grid ≡ all_ends s.roads.network.segments) }
    ensures fault { IfErr result (IsStartFault (start_bytes map.items settings.now speeds.now turns.now)) }
{
    match load(alloc, map, settings) {
        Ok(loaded) => start_of(rt, alloc, loaded.network, speeds, turns),
        Err(fault) => Err(fault),
    }
}
