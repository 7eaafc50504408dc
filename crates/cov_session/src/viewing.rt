// What a session begins from: the variant of its choice now.
ghost use Rattle.std.specs.Prelude.{◌≡◌, length, IfOk};
ghost use Rattle.cov_edit.specs.History.{option_count};
ghost use Rattle.cov_edit.specs.Numbering.{numbers_of};
ghost use Rattle.cov_edit.specs.Replay.{replay};
ghost use Rattle.cov_view.specs.Views.{Shows};

use cov_base::{Choice, Memory};
use cov_engine::Engine;
use cov_view::View;

/// The variant of a choice now; nothing in it is new. It takes time in the rows and lines that the engine keeps.
pub(crate) fn view_now(engine: &Engine, choice: Choice) -> Result<View, Memory>
    requires count { length choice ≡ option_count engine.now.history }
    ensures shows { IfOk result (λ view.
        Shows (numbers_of engine.now.history) (numbers_of engine.now.history).addresses view
        (replay choice engine.now.history)) }
    ensures nodes { IfOk result (λ view. view.nodes_made ≡ 0) }
    ensures lines { IfOk result (λ view. view.lines_made ≡ 0) }
{
    Engine::view(engine.visible(), choice, engine.position())
}
