//! A message with the fields that its transfers carry (2.7.5, 3.2).
ghost use Rattle.std.specs.Prelude.{◌≡◌, [], None, IfOk, OnErr};
ghost use Rattle.amqp_link_delivery.specs.Copies.{IsCopy, CarriesMore};

use amqp_link_types::types::{Message, MessageFormat, Payload};
use std::alloc::AllocError;

/// A message to be sent.
#[derive(Debug, PartialEq, Eq, Drop)]
pub struct Sendable<T> {
    /// The message.
    pub message: Message<T>,
    /// The format of the message (2.8.11).
    pub message_format: MessageFormat,
    /// Whether it is sent settled. Only a link of sender settle mode `Mixed` reads this.
    pub settled: Option<bool>,
}

/// No message, yet.
#[derive(Clone, Copy, Debug, Default, PartialEq, Eq)]
pub struct Uninitialized;

/// A `Sendable` that is being built: `State` is `Uninitialized`, or the message.
#[derive(Debug, PartialEq, Eq, Drop)]
pub struct Builder<State> {
    /// The message, once there is one.
    pub message: State,
    /// The format of the message (2.8.11).
    pub message_format: MessageFormat,
    /// Whether it is sent settled.
    pub settled: Option<bool>,
}

impl Sendable<Uninitialized> {
    /// A builder without a message, of format 0, without a settled flag.
    pub fn builder() -> Builder<Uninitialized>
        ensures { result ≡ record { message = record {}; message_format = 0; settled = None } }
    {
        Builder::new()
    }
}

impl<T> Sendable<T> {
    /// This message, of format 0, without a settled flag.
    pub fn from_message(message: Message<T>) -> Sendable<T>
        ensures { result ≡ record { message = message; message_format = 0; settled = None } }
    {
        Sendable {
            message,
            message_format: 0,
            settled: None,
        }
    }

    /// A message with this body alone, of format 0, without a settled flag.
    pub fn from_body(body: T) -> Sendable<T>
        ensures { result ≡ record {
          message = record { preamble = []; body = body; footer = [] };
          message_format = 0;
          settled = None;
        } }
    {
        Sendable::from_message(Message {
            preamble: Payload::new(),
            body,
            footer: Payload::new(),
        })
    }
}

impl<T: Clone + Drop> Clone for Sendable<T> {
    ghost is_clone = { IsCopy T.is_clone };

    // A slice of no bytes does not allocate; the contract of `clone` leaves that open.
    fn clone(&self) -> Result<Sendable<T>, AllocError>
        ensures copy { IfOk result (IsCopy T.is_clone self.now) }
        ensures memory { OnErr result (CarriesMore T.is_infallible self.now) }
    {
        let preamble = self.message.preamble.slice(..)?;
        let footer = self.message.footer.slice(..)?;
        Ok(Sendable {
            message: Message {
                preamble,
                body: self.message.body.clone()?,
                footer,
            },
            message_format: self.message_format,
            settled: self.settled,
        })
    }
}

impl Builder<Uninitialized> {
    /// No message, format 0, and no settled flag.
    pub fn new() -> Builder<Uninitialized>
        ensures { result ≡ record { message = record {}; message_format = 0; settled = None } }
    {
        Builder {
            message: Uninitialized,
            message_format: 0,
            settled: None,
        }
    }
}

impl Default for Builder<Uninitialized> {
    ghost is_default = { λ builder. builder ≡ record {
      message = record {};
      message_format = 0;
      settled = None;
    } };

    fn default() -> Builder<Uninitialized> {
        Builder::new()
    }
}

impl<State: Drop> Builder<State> {
    /// The same with this message, which replaces one that was there.
    pub fn message<T>(self, message: Message<T>) -> Builder<Message<T>>
        ensures { result ≡ record {
          message = message;
          message_format = self.message_format;
          settled = self.settled;
        } }
    {
        Builder {
            message,
            message_format: self.message_format,
            settled: self.settled,
        }
    }
}

impl<State> Builder<State> {
    /// The same with this format.
    pub fn message_format(self, message_format: MessageFormat) -> Builder<State>
        ensures { result ≡ record self { message_format = message_format } }
    {
        Builder {
            message: self.message,
            message_format,
            settled: self.settled,
        }
    }

    /// The same with this settled flag.
    pub fn settled(self, settled: Option<bool>) -> Builder<State>
        ensures { result ≡ record self { settled = settled } }
    {
        Builder {
            message: self.message,
            message_format: self.message_format,
            settled,
        }
    }
}

impl<T> Builder<Message<T>> {
    /// The `Sendable` that was built.
    pub fn build(self) -> Sendable<T>
        ensures { result ≡ record {
          message = self.message;
          message_format = self.message_format;
          settled = self.settled;
        } }
    {
        Sendable {
            message: self.message,
            message_format: self.message_format,
            settled: self.settled,
        }
    }
}

impl<B> From<Builder<Message<B>>> for Sendable<B> {
    ghost from_gives = { λ builder sendable. sendable ≡ record {
      message = builder.message;
      message_format = builder.message_format;
      settled = builder.settled;
    } };

    // The same as `build`.
    fn from(built: Builder<Message<B>>) -> Sendable<B> {
        let Builder {
            message,
            message_format,
            settled,
        } = built;
        Sendable {
            message,
            message_format,
            settled,
        }
    }
}
