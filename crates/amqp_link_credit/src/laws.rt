//! What any calls of a credit run keep, by the definitions alone.
//!
//! Each function here does nothing: its contract is the law.
ghost use Rattle.std.specs.Prelude.{◌≡◌, ℕ, ◌<◌, ◌≤◌, ◌^◌, ◌++◌, ◌∷◌, Bool, List, true, false, None, Ok};
ghost use Rattle.amqp_link_payloads.specs.declared.message.Message.{Message as TheMessage};
ghost use Rattle.amqp_link_payloads.specs.declared.message.whole.Whole.{Whole as TheWhole};
ghost use Rattle.amqp_link_types.specs.Refusals.{refusal};
ghost use Rattle.amqp_link_types.specs.declared.frame.LinkFrame.{LinkFrame as TheFrame};
ghost use Rattle.amqp_link_receiver.specs.Completing.{completion_refusal};
ghost use Rattle.amqp_link_sender.specs.Senders.{payload_tests};
ghost use Rattle.amqp_link_worlds.specs.Receiving.{CanReceive};
ghost use Rattle.amqp_link_worlds.specs.Steps.{held_after};
ghost use Rattle.amqp_link_credit.specs.CreditCalls.{new_run, sending_tests, IsTransfer, run_delivery};
ghost use Rattle.amqp_link_credit.specs.CreditRuns.{RunCall, IsCreditRun, sent_in, completed_in};
ghost use Rattle.amqp_link_credit.specs.CreditWorlds.{CreditWorld, KeepsCredit, IsCreditWorld, under_way};

/// From no credit at either endpoint, every list of calls keeps the delivery-counts and limits in order
/// (2.6.7).
pub fn credit_is_kept()
    ensures credit { (count limit : ℕ) (calls : List RunCall) (new : CreditWorld)
        → count < 2 ^ 32 → 29 ≤ limit → IsCreditRun (new_run count limit) calls new → KeepsCredit new }
    ensures kept { (count limit : ℕ) (calls : List RunCall) (new : CreditWorld)
        → count < 2 ^ 32 → 29 ≤ limit → IsCreditRun (new_run count limit) calls new → IsCreditWorld new }
{}

/// The deliveries that were completed, followed by those under way, are those that were under way, followed by
/// those that were sent: no delivery is completed twice, and each that is completed has its payload, in the order
/// of the sends. What is under way after the last call is not completed.
pub fn deliveries_complete_in_order()
    ensures { (old : CreditWorld) (calls : List RunCall) (new : CreditWorld) → IsCreditRun old calls new
        → completed_in calls ++ under_way new ≡ under_way old ++ sent_in calls }
{}

/// In any run the receiver can hold a transfer that arrives, it refuses a complete delivery only if it is out of
/// memory, and so does the sender refuse a send that passes the tests of a run.
pub fn a_run_refuses_only_for_memory()
    ensures held { (w : CreditWorld) (f : TheFrame) (rest : List TheFrame) (id : ℕ) (more : Bool) → IsCreditWorld w
        → w.forward ≡ f ∷ rest → IsTransfer f more → CanReceive w.held id f }
    ensures whole { (w : CreditWorld) (f : TheFrame) (rest : List TheFrame) (id number offset : ℕ)
        (message : TheMessage TheWhole) → IsCreditWorld w → w.forward ≡ f ∷ rest → IsTransfer f false
        → completion_refusal w.receiver (held_after w.held id f).performative number offset (Ok message)
        ≡ None }
    ensures sent { (w : CreditWorld) (payload : List ℕ) (settled : Bool) → IsCreditWorld w
        → refusal (sending_tests w payload settled) ≡ None
        → refusal (payload_tests w.sender (run_delivery settled) payload) ≡ None }
{}
