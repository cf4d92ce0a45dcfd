ghost use Rattle.std.specs.Prelude.{◌≡◌, ◌∷◌, ◌++◌, [], OnOk, map};
ghost use Rattle.seq_cost.specs.Different.{call_of};
ghost use Rattle.call_graph.specs.Edges.{edges_from, edges_to};

use crate::call_places::CallPlaces;
use seq_cost::Call;
use seq_tree::NoMemory;

/// Adds the edge from a place to that of an operation, where it has one.
fn add_edge<P: CallPlaces>(
    places: &P,
    from: usize,
    op: &Call<'_>,
    edges: &mut Vec<(usize, usize)>,
) -> Result<(), NoMemory>
    ensures { OnOk result (edges.new.items ≡ edges.old.items ++ edges_to (P.places places.now) from (call_of op.now ∷ [])) }
{
    match places.place(op.object, op.op) {
        None => Ok(()),
        Some(to) => {
            edges.push((from, to))?;
            Ok(())
        }
    }
}

/// Adds the edges from the place of a caller, where it has one, to those of what it calls. `NoMemory` comes for want of memory alone.
pub fn add_edges<P: CallPlaces>(
    places: &P,
    from: Option<usize>,
    calls: &[Call<'_>],
    edges: &mut Vec<(usize, usize)>,
) -> Result<(), NoMemory>
    ensures { OnOk result (edges.new.items ≡ edges.old.items ++ edges_from (P.places places.now) from (map call_of calls.now)) }
{
    let Some(from) = from else {
        return Ok(());
    };
    'calls: for op in calls {
        add_edge(places, from, op, edges)?;
    }
    Ok(())
}
