// A throw, which is decided without a look at the handlers, by the handlers.
ghost use Rattle.std.specs.Prelude.{◌≡◌};
ghost use Rattle.rules.specs.Lent.{lent};
ghost use Rattle.interpreter.specs.Stages.{caught};

use handlers::throw_at;
use rules::{Decision, Halt, Method, State};

// What a decision of a method without handlers comes to with them. Everything but a throw is none of their business, so that no turn of the loop of ordinary steps has
// to look at them.
pub(crate) fn ask_handlers(method: &Method, s: State, decision: Decision) -> Decision
    ensures { result ≡ caught (lent method.now) s decision }
{
    match decision {
        Err(Halt::Throw) => throw_at(method, s, s.pc),
        _ => decision,
    }
}
