//! What responses and their bearer contexts say, read where they lie (TS 29.274 tables 7.2.2-2,
//! 7.2.4-2).

ghost use Rattle.gtp_ie.specs.Form.{number_of};
ghost use Rattle.gtp_ie.specs.declared.form.Form.TheVariants as forms;
ghost use Rattle.std.specs.Prelude.{◌≡◌, ◌↔◌, IsTrue, is_some};
ghost use Rattle.gtp_v2.specs.Viewed.{optional_at, context_rows, contexts_of};
ghost use Rattle.gtp_machine.specs.Element.{IsAccepting, address_of, teid_in};
ghost use Rattle.gtp_gateway.specs.receive.ResponseContext.{HasCauses, ReadsContext, ReadsOnly};

use gtp_v2::{ContextView, EbiValue, MessageView};
use gtp_values::{Addr, Below, Cause, FTeid, Paa, Teid};

/// What a bearer context of a response says.
#[derive(Clone, Copy)]
pub struct ResponseContext {
    pub identity: Below<16>,
    pub cause: Cause,
    /// The TEID of the peer's F-TEID for the user plane (instance 2).
    pub user: Option<Teid>,
    /// The TEID of the receiver's own F-TEID for the user plane, which comes back from its request
    /// (instance 3).
    pub returned: Option<Teid>,
}

/// Whether the cause of a response or of a bearer context accepts (TS 29.274 8.4).
pub fn accepts(cause: &Cause) -> bool
    ensures { IsTrue result ↔ IsAccepting cause.now }
{
    cause.is_accepting()
}

/// The TEID of an F-TEID that may be absent.
pub fn teid_of(end: Option<FTeid>) -> Option<Teid>
    ensures { result ≡ teid_in end }
{
    Some(end?.teid())
}

/// The address of a PDN Address Allocation (TS 29.274 8.14) that may be absent.
pub fn address_of(allocation: Option<Paa>) -> Option<Addr>
    ensures { result ≡ address_of allocation }
{
    allocation?.address()
}

/// What a bearer context says that has an identity and a cause.
fn context_in(context: &ContextView<'_>) -> ResponseContext
    requires identity { IsTrue (is_some (optional_at (number_of forms.Ebi) 0 context.now)) }
    requires cause { IsTrue (is_some (optional_at (number_of forms.Cause) 0 context.now)) }
    ensures { ReadsContext context.now result }
{
    let EbiValue(identity) = context.needed(0);
    ResponseContext {
        identity,
        cause: context.needed(0),
        user: teid_of(context.value(2)),
        returned: teid_of(context.value(3)),
    }
}

/// What the only bearer context of a response says, where there is exactly one.
pub fn only_context_in(view: &MessageView<'_>) -> Option<ResponseContext>
    requires { HasCauses view.now.message.kind }
    ensures { ReadsOnly (context_rows view.now.message.kind) (contexts_of view.now.message) result }
{
    let mut contexts = view.contexts();
    let first = contexts.next()?;
    match contexts.next() {
        Some(_) => None,
        None => Some(context_in(&first)),
    }
}
