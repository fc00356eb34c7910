//! Jobs: messages that are handed out to be run, with their handlers.
ghost use Rattle.std.specs.Prelude.{◌≡◌, None, Some};
ghost use Rattle.hx_replicas.specs.Participants.{end_of};
ghost use Rattle.hx_replicas.specs.Jobs.{IsOut, RunsWith, is_failed, seen_in};

use hx_cluster::{Message, Outcome};
use hx_handler::Handler;
use hx_ids::StateId;
use hx_model::ERROR;
use std::marker::Model;

/// A message that is to be run, with its handler. It can't be dropped: it has to be run or put
/// back.
pub struct Job<H: Handler> {
    message: Message,
    handler: Option<H>,
}

impl<H: Handler> Model for Job<H> {
    ghost use Rattle.hx_replicas.specs.Jobs.{Job as Seen, IsOut, seen_in};

    ghost Value = { Seen };

    ghost view = { λ a. record {
      message = a.message;
      handler = seen_in H.Handler a.handler;
    } };

    ghost invariant = { λ a.
        IsOut a.message a.message.from (seen_in H.Handler a.handler) };
}

/// A message that was run, with its handler. It can't be dropped: it has to be done.
pub struct Ran<H: Handler> {
    message: Message,
    handler: Option<H>,
    outcome: Outcome,
}

impl<H: Handler> Model for Ran<H> {
    ghost use Rattle.std.specs.Prelude.{Some};
    ghost use Rattle.hx_replicas.specs.Jobs.{Ran as Seen, IsOut, seen_in};
    ghost use Rattle.hx_replicas.specs.Participants.{end_of};

    ghost Value = { Seen };

    ghost view = { λ a. record {
      message = a.message;
      handler = seen_in H.Handler a.handler;
      outcome = a.outcome;
    } };

    ghost invariant = { λ a.
        IsOut a.message (end_of a.message (Some a.outcome))
        (seen_in H.Handler a.handler) };
}

/// A message that is done, or was put back, with its handler. It can't be dropped: its participant
/// takes it back.
pub struct Done<H: Handler> {
    message: Message,
    handler: Option<H>,
    outcome: Option<Outcome>,
}

impl<H: Handler> Model for Done<H> {
    ghost use Rattle.hx_replicas.specs.Jobs.{Done as Seen, IsOut, seen_in};
    ghost use Rattle.hx_replicas.specs.Participants.{end_of};

    ghost Value = { Seen };

    ghost view = { λ a. record {
      message = a.message;
      handler = seen_in H.Handler a.handler;
      outcome = a.outcome;
    } };

    ghost invariant = { λ a.
        IsOut a.message (end_of a.message a.outcome) (seen_in H.Handler a.handler) };
}

impl<H: Handler> Job<H> {
    /// A job of its parts, as they came out of one.
    pub fn from_parts(message: Message, handler: Option<H>) -> Job<H>
        requires { IsOut message message.from (seen_in H.Handler handler) }
        ensures message { result.message ≡ message }
        ensures handler { result.handler ≡ seen_in H.Handler handler }
    {
        Job { message, handler }
    }

    /// Its message, and its handler, if it has one.
    pub fn into_parts(self) -> (Message, Option<H>)
        ensures message { result.0 ≡ self.message }
        ensures handler { seen_in H.Handler result.1 ≡ self.handler }
        ensures out { IsOut self.message self.message.from self.handler }
    {
        let Job { message, handler } = self;
        (message, handler)
    }

    /// The message that the job is of.
    pub fn message(&self) -> &Message
        ensures { result.now ≡ self.now.message }
    {
        &self.message
    }

    /// Runs the transition: a reset where it leaves ERROR; a failure where there is no handler;
    /// else a run of the handler.
    pub fn run(self) -> Ran<H>
        ensures message { result.message ≡ self.message }
        ensures runs { RunsWith self.message self.handler result.handler
            (is_failed result.outcome) }
    {
        let Job { message, handler } = self;
        let Some(mut handler) = handler else {
            let outcome = if message.from == ERROR {
                Outcome::Ok
            } else {
                Outcome::Failed
            };
            return Ran {
                message,
                handler: None,
                outcome,
            };
        };
        if message.from == ERROR {
            handler.reset();
            return Ran {
                message,
                handler: Some(handler),
                outcome: Outcome::Ok,
            };
        }
        match handler.run(message.from, message.to) {
            Ok(()) => Ran {
                message,
                handler: Some(handler),
                outcome: Outcome::Ok,
            },
            Err(_) => Ran {
                message,
                handler: Some(handler),
                outcome: Outcome::Failed,
            },
        }
    }

    /// Ends the job without running it.
    pub fn put_back(self) -> Done<H>
        ensures { result ≡ record {
          message = self.message;
          handler = self.handler;
          outcome = None;
        } }
    {
        let Job { message, handler } = self;
        Done {
            message,
            handler,
            outcome: None,
        }
    }
}

impl<H: Handler> Ran<H> {
    /// The message that the job was of.
    pub fn message(&self) -> &Message
        ensures { result.now ≡ self.now.message }
    {
        &self.message
    }

    /// How the run ended.
    pub fn outcome(&self) -> Outcome
        ensures { result ≡ self.now.outcome }
    {
        self.outcome
    }

    /// Ends the job by its outcome.
    pub fn done(self) -> Done<H>
        ensures { result ≡ record {
          message = self.message;
          handler = self.handler;
          outcome = Some self.outcome;
        } }
    {
        let Ran {
            message,
            handler,
            outcome,
        } = self;
        Done {
            message,
            handler,
            outcome: Some(outcome),
        }
    }
}

impl<H: Handler> Done<H> {
    /// The message that the job was of.
    pub fn message(&self) -> &Message
        ensures { result.now ≡ self.now.message }
    {
        &self.message
    }

    /// The state that its replica comes to.
    pub(crate) fn end(&self) -> StateId
        ensures { result ≡ end_of self.now.message self.now.outcome }
    {
        match self.outcome {
            None => self.message.from,
            Some(outcome) => self.message.state_after(outcome),
        }
    }

    /// Its message, and its handler, if it has one.
    pub(crate) fn into_parts(self) -> (Message, Option<H>)
        ensures message { result.0 ≡ self.message }
        ensures handler { seen_in H.Handler result.1 ≡ self.handler }
        ensures out { IsOut self.message (end_of self.message self.outcome) self.handler }
    {
        let Done {
            message,
            handler,
            outcome: _,
        } = self;
        (message, handler)
    }
}
