//! What follows from the definitions of a pair, without any call. A pair's calls are proved by the same
//! lemmas.
//!
//! Each function here does nothing: its contract is the law.
ghost use Rattle.std.specs.Prelude.{◌≡◌, ◌⊎◌, [], ◌∷◌, ℕ, Bool, true, false, not, List, None, Some, Option, Ok, Result, IsSomeAnd, slice_get};
ghost use Rattle.amqp_link_payloads.specs.declared.error.DecodeError.{DecodeError};
ghost use Rattle.amqp_link_payloads.specs.declared.message.Message.{Message as TheMessage};
ghost use Rattle.amqp_link_types.specs.Entries.{Tag, Entries, entry_at};
ghost use Rattle.amqp_link_types.specs.Refusals.{refusal};
ghost use Rattle.amqp_link_types.specs.declared.types.delivery_state.DeliveryState.{DeliveryState};
ghost use Rattle.amqp_link_types.specs.declared.types.delivery_state.DeliveryState.TheVariants.{Accepted};
ghost use Rattle.amqp_link_types.specs.declared.types.errors.LinkStateError.{LinkStateError};
ghost use Rattle.amqp_link_state.specs.declared.state.LinkState.TheVariants.{Unattached, AttachReceived, Attached, Detached};
ghost use Rattle.amqp_link_core.specs.Held.{Held};
ghost use Rattle.amqp_link_core.specs.declared.resumption.ResumingDelivery.{ResumingDelivery};
ghost use Rattle.amqp_link_exchange.specs.Exchanges.{outcomes_returned};
ghost use Rattle.amqp_link_sender.specs.Senders.{next_tag};
ghost use Rattle.amqp_link_ledger.specs.Fates.{IsRecorded, MovesOnce, fates_of, latest};
ghost use Rattle.amqp_link_ledger.specs.declared.fate.Fate.TheVariants.{Pending, Resolved};
ghost use Rattle.amqp_link_worlds.specs.Attachable.{CanAsk, CanTakeAsked, CanAnswer, CanTakeAnswered};
ghost use Rattle.amqp_link_worlds.specs.Callable.{CanSend, IsFree, CanGrant, CanCut, CanResume, CanComplete, CanSettle, CanAbort};
ghost use Rattle.amqp_link_worlds.specs.Invariants.{IsWorld};
ghost use Rattle.amqp_link_worlds.specs.Receiving.{CanReceive};
ghost use Rattle.amqp_link_worlds.specs.PairRuns.{Does, FatesMoveOnce, HoldsWhatArrived, HoldsWhatWasSent, IsRun, Moment, RunsEvents, Step, is_out_after, is_send_of, tests_of, changes_held};
ghost use Rattle.amqp_link_worlds.specs.Steps.{new_world, items_to_resume, list_to_resume, later, sender_asking, receiver_at_limit, receiver_half_attached, receiver_together, Attaches, AttachStop, StopsAt, Grants, Sends, Arrives, Cuts, Resumes, PutsBack, HandsOutDelivery, Settles, after_hand_out, has_flag, attach_tests, send_tests, arrive_tests, cut_tests, next_tests, hand_out_tests, settle_tests, withdraw_tests, WithdrawsDelivery, SendsAbort, DropsAbort, AbortArrives};
ghost use Rattle.amqp_link_worlds.specs.Wires.{OnWire, does_begin};
ghost use Rattle.amqp_link_worlds.specs.Worlds.{World, is_out_at, Apart, Halfway, Good, IsOpen, IsRegistered, is_together, standing, entry_in, held_at, bytes_in, receiver_entry};
ghost use Rattle.amqp_link_worlds.specs.declared.error.PairError.{PairError as ThePairError};
ghost use Rattle.amqp_link_worlds.specs.declared.event.AnswerOf.{AnswerOf};
ghost use Rattle.amqp_link_worlds.specs.declared.event.Event.{Event};
ghost use Rattle.amqp_link_worlds.specs.declared.event.Event.TheVariants.{Settle};
ghost use Rattle.amqp_link_worlds.specs.declared.progress.Progress.{Progress as TheProgress};
ghost use Rattle.amqp_link_worlds.specs.Resumptions.{entry_of};
ghost use Rattle.amqp_link_core.specs.declared.resumption.ResumingDelivery.TheVariants.{Abort};
ghost use Rattle.amqp_link_types.specs.Frames.{performative_of};
ghost use Rattle.amqp_link_types.specs.declared.delivery.UnsettledMessage.{UnsettledMessage as TheUnsettledMessage};

/// A new pair has the invariant (`IsWorld`).
pub fn a_new_pair_is_kept()
    ensures { (count : ℕ) → IsWorld (new_world count) }
{}

/// By the invariant each delivery is good, and the pending registrations are those of the sender's unsettled
/// map.
pub fn a_kept_pair_is_good()
    ensures good { (w : World) → IsWorld w → Good w }
    ensures ledger { (w : World) → IsWorld w → IsRecorded w.ledger.link.unsettled w.ledger.records }
{}

/// Each call that no test refuses keeps the invariant, and so does an attach that stops between its steps.
pub fn each_call_keeps_a_pair()
    ensures attach { (old new : World) (limit count : ℕ) → IsWorld old → refusal (attach_tests old limit) ≡ None
        → Attaches old limit count new → IsWorld new }
    ensures halfway { (stop : AttachStop) (old new : World) (limit : ℕ) → IsWorld old → StopsAt stop old limit new → IsWorld new }
    ensures grant { (old new : World) (n answer : ℕ) → IsWorld old → Grants old n answer new → IsWorld new }
    ensures send { (old new : World) (payload tag : List ℕ) (count : ℕ) → IsWorld old → refusal (send_tests old payload) ≡ None
        → Sends old payload tag count new → IsWorld new }
    ensures arrive { (old new : World) (id : ℕ) (tag : Tag) (place : ℕ × ℕ) (whole : Bool) → IsWorld old
        → refusal (arrive_tests old) ≡ None → Arrives old id tag place whole new → IsWorld new }
    ensures cut { (old new : World) → IsWorld old → refusal (cut_tests old) ≡ None → Cuts old new → IsWorld new }
    ensures resume_next { (old new : World) (tag : Tag) (count : ℕ) (resume : Bool) → IsWorld old
        → refusal (next_tests old) ≡ None → Resumes old tag count resume new → IsWorld new }
    ensures put_back_next { (old new : World) (tag : Tag) → IsWorld old → refusal (next_tests old) ≡ None
        → PutsBack old tag new → IsWorld new }
    ensures hand_out { (old new : World) (tag : Tag) (p : TheProgress) → IsWorld old → is_together old.phase ≡ true
        → entry_at old.deliveries tag ≡ Some p → new ≡ after_hand_out old tag p → IsWorld new }
    ensures settle { (old new : World) (tag : Tag) → IsWorld old → refusal (settle_tests old tag) ≡ None
        → Settles old tag new → IsWorld new }
    ensures withdraw { (old new : World) (tag : Tag) → IsWorld old → refusal (withdraw_tests old tag) ≡ None
        → WithdrawsDelivery old tag new → IsWorld new }
    ensures resume_next_abort { (old new : World) (tag : Tag) → IsWorld old → refusal (next_tests old) ≡ None
        → SendsAbort old tag new → IsWorld new }
    ensures put_back_next_abort { (old new : World) (tag : Tag) → IsWorld old → refusal (next_tests old) ≡ None
        → DropsAbort old tag new → IsWorld new }
    ensures arrive_abort { (old new : World) (tag : Tag) → IsWorld old → refusal (arrive_tests old) ≡ None
        → AbortArrives old tag new → IsWorld new }
{}

/// If no test of a call holds, the endpoints below refuse it only if they are out of memory. The receiver
/// reports whatever it holds, so that a further arrival adds no entry to its map; and a transfer begins a delivery
/// exactly if the receiver says so (`ReceiverLink::begins_delivery`).
pub fn endpoints_refuse_only_for_memory()
    ensures send { (w : World) (payload : List ℕ) → IsWorld w → refusal (send_tests w payload) ≡ None → CanSend w.ledger.link }
    ensures tag { (w : World) (payload : List ℕ) → IsWorld w → refusal (send_tests w payload) ≡ None
        → IsFree w (next_tag w.ledger.link) }
    ensures grant { (w : World) → IsWorld w → is_together w.phase ≡ true → CanGrant w.ledger.link w.receiver }
    ensures cut { (w : World) → IsWorld w → is_together w.phase ≡ true → CanCut w.ledger.link w.receiver }
    ensures arrive { (w : World) (next : OnWire) (rest : List OnWire) (id : ℕ) → IsWorld w → w.wire ≡ next ∷ rest
        → (performative_of next.frame).aborted ≡ false → IsSomeAnd (entry_at w.deliveries next.tag) (λ p. CanReceive p.held id next.frame) }
    ensures turn { (w : World) (next : OnWire) (rest : List OnWire) → IsWorld w → w.wire ≡ next ∷ rest
        → does_begin next.frame ≡ not w.receiver.more }
    ensures report { (w : World) (tag : Tag) (held : Held) → IsWorld w → held_at w tag ≡ Some held
        → entry_at w.receiver.unsettled tag ≡ receiver_entry (Some held) }
    ensures listed { (w : World) (tag : Tag) (next : ResumingDelivery) (others : Entries ResumingDelivery) → IsWorld w
        → w.resuming ≡ (tag, next) ∷ others → ((entry : TheUnsettledMessage) × (entry_of next ≡ Some entry)) ⊎ (next ≡ Abort 0 None) }
    ensures resume_next { (w : World) (tag : Tag) (next : ResumingDelivery) (others : Entries ResumingDelivery) (entry : TheUnsettledMessage) → IsWorld w
        → is_together w.phase ≡ true → w.resuming ≡ (tag, next) ∷ others → entry_of next ≡ Some entry → CanResume w tag next }
    ensures resume_next_abort { (w : World) (tag : Tag) (others : Entries ResumingDelivery) → IsWorld w
        → is_together w.phase ≡ true → w.resuming ≡ (tag, Abort 0 None) ∷ others → CanAbort w tag }
    ensures hand_out { (w : World) (tag : Tag) (held : Held) → IsWorld w → is_together w.phase ≡ true
        → held_at w tag ≡ Some held → CanComplete w.receiver held }
    ensures settle { (w : World) (tag : Tag) → IsWorld w → refusal (settle_tests w tag) ≡ None
        → CanSettle w tag }
{}

/// An attach of both endpoints has four steps, and each endpoint refuses its step only if it is out of
/// memory; an attach that has stopped continues from the step that it has reached.
pub fn an_attach_goes_in_four_steps()
    ensures ask { (w : World) (limit : ℕ) → IsWorld w → w.phase ≡ Apart → refusal (attach_tests w limit) ≡ None
        → CanAsk limit w.ledger.link }
    ensures take_asked { (w : World) (limit : ℕ) → IsWorld w
        → (w.receiver.local_state ≡ Unattached) ⊎ (w.receiver.local_state ≡ Detached) → CanTakeAsked limit w.ledger.link w.receiver }
    ensures answer { (w : World) (limit : ℕ) → IsWorld w → refusal (attach_tests w limit) ≡ None
        → CanAnswer limit w.ledger.link.flow_state.delivery_count w.receiver }
    ensures take_answered { (w : World) (limit : ℕ) → IsWorld w
        → CanTakeAnswered limit w.ledger.link.flow_state.delivery_count w.ledger.link w.receiver }
    ensures asked { (w : World) (limit : ℕ) → IsWorld w → w.phase ≡ Halfway limit
        → (sender_asking limit w.ledger.link ≡ w.ledger.link) × (receiver_at_limit limit w.receiver ≡ w.receiver) }
    ensures taken { (w : World) (limit : ℕ) → IsWorld w → w.phase ≡ Halfway limit → w.receiver.local_state ≡ AttachReceived
        → receiver_half_attached limit w.ledger.link.flow_state.delivery_count w.receiver ≡ w.receiver }
    ensures answered { (w : World) (limit : ℕ) → IsWorld w → w.phase ≡ Halfway limit → w.receiver.local_state ≡ Attached
        → receiver_together limit w.ledger.link.flow_state.delivery_count w.receiver ≡ w.receiver }
    ensures allowed { (stop : AttachStop) (old mid : World) (limit : ℕ) → IsWorld old → StopsAt stop old limit mid
        → refusal (attach_tests mid limit) ≡ None }
    ensures stops { (stop next : AttachStop) (old mid new : World) (limit : ℕ) → StopsAt stop old limit mid
        → StopsAt next mid limit new → StopsAt (later stop next) old limit new }
    ensures attaches { (stop : AttachStop) (old mid new : World) (limit count : ℕ) → StopsAt stop old limit mid
        → Attaches mid limit count new → Attaches old limit count new }
{}

/// An attach resolves no delivery, and hands out each pending delivery once, in the order of the sender's
/// map: to be sent again where the receiver holds nothing of it, otherwise to be resumed with what follows the bytes that
/// are held. What the receiver alone names is to be aborted.
pub fn an_attach_hands_out_each_delivery_once()
    ensures outcomes { (w : World) → IsWorld w → is_together w.phase ≡ false
        → outcomes_returned w.ledger.link.unsettled w.receiver.unsettled ≡ [] }
    ensures listed { (w : World) → IsWorld w → is_together w.phase ≡ false → list_to_resume w ≡ items_to_resume w }
{}

/// Each step and each run keeps the invariant.
pub fn each_run_keeps_a_pair<B>()
    ensures step { (decoded : List ℕ → Result (TheMessage B) DecodeError) (old new : World) (e : Event)
        (r : Result (AnswerOf B) ThePairError) → IsWorld old → Step decoded old e r new → IsWorld new }
    ensures run { (decoded : List ℕ → Result (TheMessage B) DecodeError) (old new : World)
        (moments : List (Moment decoded)) → IsWorld old → IsRun decoded old moments new → IsWorld new }
    ensures events { (decoded : List ℕ → Result (TheMessage B) DecodeError) (old new : World) (events : List Event)
        (answers : List (Result (AnswerOf B) ThePairError)) (finished : Bool) → IsWorld old
        → RunsEvents decoded old events answers finished new → IsWorld new }
{}

/// Over a run each registration keeps its number and its tag, and a fate that has moved stays: of a registration that
/// was there before (`there`), and of one that was made in the run (`made`).
pub fn fates_move_once_in_a_run<B>()
    ensures there { (decoded : List ℕ → Result (TheMessage B) DecodeError) (old new : World)
        (moments : List (Moment decoded)) → IsRun decoded old moments new
        → MovesOnce old.ledger.records new.ledger.records }
    ensures made { (decoded : List ℕ → Result (TheMessage B) DecodeError) (old new : World)
        (moments : List (Moment decoded)) → IsRun decoded old moments new
        → FatesMoveOnce decoded moments new }
{}

/// Only a settlement resolves a registration: one of its own tag, with the outcome accepted.
pub fn only_a_settlement_resolves<B>()
    ensures { (decoded : List ℕ → Result (TheMessage B) DecodeError) (old new : World) (e : Event) (r : Result (AnswerOf B) ThePairError)
        → IsWorld old → Step decoded old e r new
        → (n : ℕ) (tag : Tag) (outcome : Result (Option DeliveryState) LinkStateError)
        → slice_get old.ledger.records n ≡ Some (tag, Pending) → slice_get new.ledger.records n ≡ Some (tag, Resolved outcome)
        → (e ≡ Settle tag) × (outcome ≡ Ok (Some Accepted)) }
{}

/// No step changes the payload of a delivery, unless it sends a new delivery with the tag.
pub fn no_payload_changes<B>()
    ensures { (decoded : List ℕ → Result (TheMessage B) DecodeError) (tag : Tag) (old new : World) (e : Event)
        (r : Result (AnswerOf B) ThePairError) → IsWorld old → Step decoded old e r new → is_send_of tag r ≡ false
        → IsOpen (latest (fates_of tag new.ledger.records)) → entry_in (standing new tag) ≡ entry_in (standing old tag) }
{}

/// A whole delivery is what was sent: a send registers its payload (`sent`), every other step keeps what is registered
/// (`stays`), and of a delivery whose last transfer has arrived the receiver holds the registered payload (`whole`). So
/// after a run each delivery is registered with what the last send of its tag in the run gave, otherwise with what was
/// registered before; the receiver holds a front of that, and all of it once its last transfer has arrived (`run`).
pub fn held_is_what_was_sent<B>()
    ensures sent { (old new : World) (payload tag : List ℕ) (count : ℕ) → Sends old payload tag count new
        → IsRegistered new tag payload }
    ensures stays { (decoded : List ℕ → Result (TheMessage B) DecodeError) (tag payload : List ℕ) (old new : World) (e : Event)
        (r : Result (AnswerOf B) ThePairError) → IsWorld old → Step decoded old e r new → is_send_of tag r ≡ false
        → IsRegistered old tag payload → IsRegistered new tag payload }
    ensures whole { (w : World) (tag payload : List ℕ) → IsWorld w → IsRegistered w tag payload
        → has_flag (λ p. p.whole) w tag ≡ true → bytes_in (held_at w tag) ≡ payload }
    ensures run { (decoded : List ℕ → Result (TheMessage B) DecodeError) (old new : World)
        (moments : List (Moment decoded)) → IsWorld old → IsRun decoded old moments new
        → HoldsWhatWasSent decoded old moments new }
{}

/// After a run the receiver holds of each delivery exactly the bytes that arrived.
pub fn held_is_what_arrived<B>()
    ensures { (decoded : List ℕ → Result (TheMessage B) DecodeError) (old new : World)
        (moments : List (Moment decoded)) → IsWorld old → IsRun decoded old moments new
        → HoldsWhatArrived decoded old moments new }
{}

/// Only an arrival of a tag and its settlement change what the receiver holds of the tag. Of a withdrawn delivery no
/// other transfer arrives than one that aborts it, so what is held of it stays until then.
pub fn only_arrivals_and_settlements_change_what_is_held<B>()
    ensures answered { (decoded : List ℕ → Result (TheMessage B) DecodeError) (tag : Tag) (old new : World) (e : Event)
        (answer : AnswerOf B) → IsWorld old → refusal (tests_of decoded old e) ≡ None → Does decoded old e answer new
        → changes_held tag e answer ≡ false → held_at new tag ≡ held_at old tag }
    ensures refused { (decoded : List ℕ → Result (TheMessage B) DecodeError) (tag : Tag) (old new : World) (e : Event)
        (error : ThePairError) → Step decoded old e (Err error) new → held_at new tag ≡ held_at old tag }
{}

/// A delivery is out from its send or its resumption until a cut, an attach or its settlement: no other call
/// changes that.
pub fn out_from_send_or_resumption_on<B>()
    ensures answered { (decoded : List ℕ → Result (TheMessage B) DecodeError) (tag : Tag) (old new : World) (e : Event)
        (answer : AnswerOf B) → IsWorld old → refusal (tests_of decoded old e) ≡ None → Does decoded old e answer new
        → is_out_at new tag ≡ is_out_after tag e answer (is_out_at old tag) }
    ensures refused { (decoded : List ℕ → Result (TheMessage B) DecodeError) (tag : Tag) (old new : World) (e : Event)
        (error : ThePairError) → Step decoded old e (Err error) new → is_out_at new tag ≡ is_out_at old tag }
{}
