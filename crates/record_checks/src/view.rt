// What the references of a whole record are judged by.
ghost use Rattle.std.specs.Prelude.{◌≡◌};
ghost use Rattle.state.specs.Bases.{bases_of};
ghost use Rattle.state.specs.Record.{in_use, live_frame};

use references::view::View;
use state::bases::bases;
use state::frames::{in_use, live_frame};
use state::record::Machine;

// The view of a machine's executing domain.
pub fn view_of(m: Machine) -> View
    ensures { result ≡ record { layout = m.layout; bases = bases_of m.layout.lengths; frame = live_frame m.depth m.frames; depth = in_use m.depth } }
{
    View {
        layout: m.layout,
        bases: bases(&m.layout.lengths),
        frame: live_frame(m.frames, m.depth),
        depth: in_use(m.depth),
    }
}
