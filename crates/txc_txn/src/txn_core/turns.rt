//! The calls of a core, and its end.
ghost use Rattle.std.specs.Prelude.{◌≡◌, ◌≢◌, [], ◌<◌};
ghost use Rattle.std.specs.Option.{ForSome};
ghost use mathlib.Core.List.{IsPrefix};
ghost use Rattle.txc_db.specs.History.{History};
ghost use Rattle.txc_app.specs.Eval.{Next};
ghost use Rattle.txc_call_registry.specs.Objects.{numbers_of, AllIdle, Objects};
ghost use Rattle.txc_txn_ports.specs.Fronts.{front_of_reply};
ghost use Rattle.txc_txn.specs.TxnCore.{receipt_pin};

use crate::receipt::{Receipt, Unfinished};
use crate::txn_core::TxnCore;
use std::alloc::Global;
use txc_app::App;
use txc_call_registry::{Cacheable, Registry};
use txc_cushion::Pin;
use txc_node::Value;
use txc_stamp::Stamp;
use txc_tags::Key;
use txc_txn_ports::{PortReply, PortRequest, Recorded, Turn};

// Returns the newest member, if a call was completed.
fn receipt_pin(recorded: &[Recorded], members: &[Pin]) -> Option<Pin>
    ensures { result ≡ receipt_pin recorded.now members.now }
{
    if recorded.is_empty() {
        return None;
    }
    members.first().copied()
}

impl TxnCore {
    ghost use Rattle.txc_txn.specs.TxnCore.{left_pin, value_of};
    ghost use Rattle.txc_txn.specs.TxnCore.{CoreHolds, Explains, IsAnswered, IsCore, IsIdle, IsRightPortReply};
    ghost use Rattle.txc_txn.specs.RunningTxn.{txn_value, HasBegunCall, HasGoneOn};

    /// Begins a call. It asks a port for something, or ends at once with an error. If there is no member, it
    /// asks to pin the present first.
    pub fn start<A: App, C: Cacheable>(
        &mut self,
        alloc: Global,
        registry: &mut Registry<A, C>,
        key: Key,
    ) -> Turn<PortRequest, Value>
        requires fits { IsCore A.next registry.old (value_of self.old) }
        requires idle { IsIdle (value_of self.old) }
        ensures fits { IsCore A.next registry.new (value_of self.new) }
        ensures holds { (L : History) → CoreHolds A.next L registry.old (value_of self.old)
            → CoreHolds A.next L registry.new (value_of self.new) }
        ensures begun { HasBegunCall (txn_value (value_of self.old) registry.old) key
            (txn_value (value_of self.new) registry.new) result }
    {
        if self.pins.members().is_empty() {
            return self.ask_pin(registry, Some(key));
        }
        self.start_call(alloc, registry, key)
    }

    /// Continues with the reply to its request.
    pub fn next<A: App, C: Cacheable>(
        &mut self,
        alloc: Global,
        registry: &mut Registry<A, C>,
        reply: PortReply,
    ) -> Turn<PortRequest, Value>
        requires fits { IsCore A.next registry.old (value_of self.old) }
        requires reply { IsAnswered (value_of self.old) reply }
        requires row { ForSome (front_of_reply reply) (λ front. front.events ≡ (value_of self.old).seen.events) }
        ensures fits { IsCore A.next registry.new (value_of self.new) }
        ensures holds { (L M : History) → IsPrefix L M → CoreHolds A.next L registry.old (value_of self.old)
            → IsRightPortReply A.next M (value_of self.old).call.need reply
            → CoreHolds A.next M registry.new (value_of self.new) }
        ensures gone_on { HasGoneOn A.next (txn_value (value_of self.old) registry.old) reply
            (txn_value (value_of self.new) registry.new) result }
    {
        self.see(&reply);
        self.answer(alloc, registry, reply)
    }

    /// Ends the transaction, and returns its receipt, and the stamps of the pins that must be returned to the
    /// pincushion. Does not allocate.
    pub fn finish(self) -> (Receipt, Vec<Stamp>)
        requires idle { IsIdle (value_of self) }
        requires answered { (value_of self).recorded ≢ [] → (value_of self).pins.members ≢ [] }
        ensures answers { result.0.answers.items ≡ (value_of self).recorded }
        ensures pin { result.0.pin ≡ receipt_pin (value_of self).recorded (value_of self).pins.members }
        ensures explained { (next : Next) (L : History) (objects : Objects)
            → CoreHolds next L objects (value_of self)
            → Explains next L (value_of self).bounds result.0.pin result.0.answers.items }
        ensures seen { result.0.seen ≡ (value_of self).seen }
        ensures give_back { result.1.items ≡ (value_of self).taken }
    {
        let pin = receipt_pin(&self.recorded, self.pins.members());
        let receipt = Receipt {
            pin,
            answers: self.recorded,
            seen: self.seen,
        };
        (receipt, self.taken)
    }

    /// Cancels the transaction, also in the middle of a call, and returns the remaining work. Every object is
    /// idle then. Does not allocate.
    pub fn cancel<A: App, C: Cacheable>(self, registry: &mut Registry<A, C>) -> Unfinished
        requires { IsCore A.next registry.old (value_of self) }
        ensures idle { AllIdle registry.new }
        ensures functions { numbers_of registry.new ≡ numbers_of registry.old }
        ensures give_back { result.give_back.items ≡ (value_of self).taken }
        ensures unpin { result.unpin ≡ left_pin (value_of self).pinning }
    {
        let unpin = match &self.pinning {
            Some(pinning) => pinning.left(),
            None => None,
        };
        let mut machine = self.machine;
        machine.cancel(registry);
        Unfinished {
            give_back: self.taken,
            unpin,
        }
    }
}
