//! What an attach states, and what a link is made with, as C has it (2.7.3, 3.5).
ghost use Rattle.std.specs.Prelude.{◌≡◌, ◌↔◌, IfErr, IfOk, IfSome, IsSome, IsTrue, IsUtf8, OnErr, OnOk, option_map};
ghost use Rattle.amqp_link_flat.specs.Attaches.{no_terminus, plain_attach, plain_source, plain_target};
ghost use Rattle.amqp_link_flat.specs.Attaches.{CarriesAddress, IsAddress, source_with, target_with};
ghost use Rattle.amqp_link_flat.specs.Attaches.{stated_attach, stated_policies};
ghost use Rattle.amqp_link_flat.specs.Attaches.{stated_source, stated_target};
ghost use Rattle.amqp_link_flat.specs.Refusing.{IsText, IsTextRefusal, IsValueRefusal};

use crate::flow::given;
use crate::numbers::{
    number_of_durability, number_of_expiry, number_of_receiver_mode, number_of_role,
    number_of_sender_mode, policies, role, settle_modes,
};
use crate::status::NO_SUCH_NUMBER;
use crate::texts::{text, text_if};
use amqp_link_types::types::{
    Attach, Handle, Source, Target, TargetArchetype, TerminusDurability, TerminusExpiryPolicy,
};
use std::alloc::Global;

/// What an attach states, but its name, its termini and its unsettled deliveries.
#[repr(C)]
#[derive(Drop)]
pub struct AttachFields {
    /// The largest message in bytes.
    pub max_message_size: u64,
    /// The handle that the endpoint which sends this gave the link.
    pub handle: u32,
    /// The role of that endpoint: `AMQP_ROLE_SENDER`, which is 0, or `AMQP_ROLE_RECEIVER`.
    pub role: u32,
    /// When the sender settles: `AMQP_SENDER_UNSETTLED`, which is 0, `AMQP_SENDER_SETTLED` or `AMQP_SENDER_MIXED`,
    /// which an attach means that states none (2.7.3).
    pub snd_settle_mode: u32,
    /// When the receiver settles: `AMQP_RECEIVER_FIRST`, which is 0, or `AMQP_RECEIVER_SECOND`.
    pub rcv_settle_mode: u32,
    /// The sender's delivery-count at the attach.
    pub initial_delivery_count: u32,
    /// Whether `max_message_size` is there.
    pub has_max_message_size: bool,
    /// Whether `initial_delivery_count` is there.
    pub has_initial_delivery_count: bool,
    /// Whether it states not all unsettled deliveries.
    pub incomplete_unsettled: bool,
}

/// A source or a target, whose address goes beside it. Filters, capabilities and properties do not cross.
#[repr(C)]
#[derive(Drop)]
pub struct Terminus {
    /// Which state of it is durable: `AMQP_DURABLE_NONE`, which is 0, and so on.
    pub durable: u32,
    /// From when on it expires: `AMQP_EXPIRES_LINK_DETACH`, which is 0, and so on. A terminus that states none means
    /// `AMQP_EXPIRES_SESSION_END` (3.5.3, 3.5.4).
    pub expiry_policy: u32,
    /// The seconds that it stays after it has begun to expire.
    pub timeout: u32,
    /// Whether there is one at all.
    pub is_there: bool,
    /// Whether it has an address.
    pub has_address: bool,
    /// Whether the peer is asked to create the node.
    pub dynamic: bool,
}

// Which state of a terminus is durable, and from when on it expires.
pub(crate) type Policies = (TerminusDurability, TerminusExpiryPolicy);

impl AttachFields {
    /// An attach with this name and these fields, without termini and unsettled deliveries.
    ///
    /// Refused with `NO_SUCH_NUMBER`, `NO_TEXT`, `OUT_OF_MEMORY`.
    pub fn to_attach(&self, alloc: Global, name: &[u8]) -> Result<Attach, u32>
        ensures attach { IfOk result (λ attach. stated_attach self.now name.now ≡ Some attach) }
        ensures number { (result ≡ Err 5) ↔ (stated_attach self.now name.now ≡ None) }
        ensures no_text { result ≡ Err 4 → ¬ (IsUtf8 name.now) }
        ensures utf8 { OnOk result (IsUtf8 name.now) }
        ensures memory { result ≡ Err 3 → IsUtf8 name.now }
        ensures refused { IfErr result IsValueRefusal }
    {
        let Some(role) = role(self.role) else {
            return Err(NO_SUCH_NUMBER);
        };
        let modes = settle_modes(self.snd_settle_mode, self.rcv_settle_mode);
        let Some((snd_settle_mode, rcv_settle_mode)) = modes else {
            return Err(NO_SUCH_NUMBER);
        };
        Ok(Attach {
            name: text(alloc, name)?,
            handle: Handle(self.handle),
            role,
            snd_settle_mode,
            rcv_settle_mode,
            source: None,
            target: None,
            unsettled: None,
            incomplete_unsettled: self.incomplete_unsettled,
            initial_delivery_count: given(
                self.has_initial_delivery_count,
                self.initial_delivery_count,
            ),
            max_message_size: if self.has_max_message_size {
                Some(self.max_message_size)
            } else {
                None
            },
            offered_capabilities: None,
            desired_capabilities: None,
            properties: None,
        })
    }

    /// What an attach states.
    pub fn of(attach: &Attach) -> AttachFields
        ensures { result ≡ plain_attach attach.now }
    {
        AttachFields {
            max_message_size: attach.max_message_size.unwrap_or(0),
            handle: attach.handle.0,
            role: number_of_role(attach.role),
            snd_settle_mode: number_of_sender_mode(attach.snd_settle_mode),
            rcv_settle_mode: number_of_receiver_mode(attach.rcv_settle_mode),
            initial_delivery_count: attach.initial_delivery_count.unwrap_or(0),
            has_max_message_size: attach.max_message_size.is_some(),
            has_initial_delivery_count: attach.initial_delivery_count.is_some(),
            incomplete_unsettled: attach.incomplete_unsettled,
        }
    }
}

impl Terminus {
    /// No terminus.
    pub fn none() -> Terminus
        ensures { result ≡ no_terminus }
    {
        Terminus {
            durable: 0,
            expiry_policy: 0,
            timeout: 0,
            is_there: false,
            has_address: false,
            dynamic: false,
        }
    }

    // Its durability and its expiry policy, if there is one; nothing if a number stands for nothing.
    pub(crate) fn policies(&self) -> Option<Option<Policies>>
        ensures policies { result ≡ stated_policies self.now }
        ensures there { IfSome result (λ both. IsTrue self.now.is_there → IsSome both) }
    {
        if !self.is_there {
            return Some(None);
        }
        match policies(self.durable, self.expiry_policy) {
            Some(both) => Some(Some(both)),
            None => None,
        }
    }

    // The source with this address, if there are policies of it.
    pub(crate) fn source_with(
        &self,
        alloc: Global,
        address: &[u8],
        policies: Option<Policies>,
    ) -> Result<Option<Source>, u32>
        ensures source { IfOk result (λ source. source
            ≡ option_map (source_with self.now address.now) policies) }
        ensures no_text { result ≡ Err 4 → ¬ (IsUtf8 address.now) }
        ensures utf8 { OnOk result (IsSome policies → IsText self.now.has_address address.now) }
        ensures memory { result ≡ Err 3 → IsUtf8 address.now }
        ensures address { OnErr result (IsTrue self.now.has_address × IsSome policies) }
        ensures refused { IfErr result IsTextRefusal }
    {
        let Some((durable, policy)) = policies else {
            return Ok(None);
        };
        let mut source = Source::default();
        source.address = text_if(alloc, self.has_address, address)?;
        source.durable = durable;
        source.expiry_policy = policy;
        source.timeout = self.timeout;
        source.dynamic = self.dynamic;
        Ok(Some(source))
    }

    // The target with this address, if there are policies of it.
    pub(crate) fn target_with(
        &self,
        alloc: Global,
        address: &[u8],
        policies: Option<Policies>,
    ) -> Result<Option<Target>, u32>
        ensures target { IfOk result (λ target. target
            ≡ option_map (target_with self.now address.now) policies) }
        ensures no_text { result ≡ Err 4 → ¬ (IsUtf8 address.now) }
        ensures utf8 { OnOk result (IsSome policies → IsText self.now.has_address address.now) }
        ensures memory { result ≡ Err 3 → IsUtf8 address.now }
        ensures address { OnErr result (IsTrue self.now.has_address × IsSome policies) }
        ensures refused { IfErr result IsTextRefusal }
    {
        let Some((durable, policy)) = policies else {
            return Ok(None);
        };
        let mut target = Target::default();
        target.address = text_if(alloc, self.has_address, address)?;
        target.durable = durable;
        target.expiry_policy = policy;
        target.timeout = self.timeout;
        target.dynamic = self.dynamic;
        Ok(Some(target))
    }

    /// The source with this address, if there is one.
    ///
    /// Refused with `NO_SUCH_NUMBER`, `NO_TEXT`, `OUT_OF_MEMORY`.
    pub fn to_source(&self, alloc: Global, address: &[u8]) -> Result<Option<Source>, u32>
        ensures source { IfOk result (λ source. stated_source self.now address.now ≡ Some source) }
        ensures number { (result ≡ Err 5) ↔ (stated_source self.now address.now ≡ None) }
        ensures no_text { result ≡ Err 4 → CarriesAddress self.now × ¬ (IsUtf8 address.now) }
        ensures utf8 { OnOk result (IsAddress self.now address.now) }
        ensures memory { result ≡ Err 3 → CarriesAddress self.now × IsUtf8 address.now }
        ensures refused { IfErr result IsValueRefusal }
    {
        match self.policies() {
            Some(policies) => self.source_with(alloc, address, policies),
            None => Err(NO_SUCH_NUMBER),
        }
    }

    /// The target with this address, if there is one.
    ///
    /// Refused with `NO_SUCH_NUMBER`, `NO_TEXT`, `OUT_OF_MEMORY`.
    pub fn to_target(&self, alloc: Global, address: &[u8]) -> Result<Option<Target>, u32>
        ensures target { IfOk result (λ target. stated_target self.now address.now ≡ Some target) }
        ensures number { (result ≡ Err 5) ↔ (stated_target self.now address.now ≡ None) }
        ensures no_text { result ≡ Err 4 → CarriesAddress self.now × ¬ (IsUtf8 address.now) }
        ensures utf8 { OnOk result (IsAddress self.now address.now) }
        ensures memory { result ≡ Err 3 → CarriesAddress self.now × IsUtf8 address.now }
        ensures refused { IfErr result IsValueRefusal }
    {
        match self.policies() {
            Some(policies) => self.target_with(alloc, address, policies),
            None => Err(NO_SUCH_NUMBER),
        }
    }

    /// A source for C, without its address.
    pub fn of_source(source: &Option<Source>) -> Terminus
        ensures { result ≡ plain_source source.now }
    {
        let Some(source) = source else {
            return Terminus::none();
        };
        Terminus {
            durable: number_of_durability(source.durable),
            expiry_policy: number_of_expiry(source.expiry_policy),
            timeout: source.timeout,
            is_there: true,
            has_address: source.address.is_some(),
            dynamic: source.dynamic,
        }
    }

    /// A target for C, without its address.
    pub fn of_target(target: &Option<TargetArchetype>) -> Terminus
        ensures { result ≡ plain_target target.now }
    {
        let Some(TargetArchetype::Target(target)) = target else {
            return Terminus::none();
        };
        Terminus {
            durable: number_of_durability(target.durable),
            expiry_policy: number_of_expiry(target.expiry_policy),
            timeout: target.timeout,
            is_there: true,
            has_address: target.address.is_some(),
            dynamic: target.dynamic,
        }
    }
}
