// Answers as their values, with the context that is handed back.
ghost use Rattle.std.specs.Prelude.{◌≡◌, Ok};
ghost use Rattle.refusals.specs.Numbers.{number_of};
ghost use Rattle.nas_core.specs.ChangeAnswer.{told_change};
ghost use Rattle.nas_core.specs.UseAnswer.{told_use};
ghost use Rattle.nas_5gs.specs.OpenAnswer.{told_open};
ghost use Rattle.nas_5gs.specs.EpsOpenAnswer.{told_eps_open};
ghost use Rattle.nas_5gs.specs.OctetAnswer.{told_octet};
ghost use Rattle.nas_5gs.specs.VerifyAnswer.{told_verify};
ghost use Rattle.nas_5gs.specs.Leaves.{refusal, change_values, use_values, open_values, eps_open_values, octet_values, verify_values};
ghost use Rattle.nas_c.specs.declared.Shown.{Shown};
ghost use Rattle.nas_c.specs.Numbers.{shown, shown_on, shown_result, shown_error, no_such_way};

use crate::{EpsLeft, Left, Shown};
use handover::AcrossAnswer;
use nas_5gs::{EpsReceived, MadeOctet, OpenError, Opened, Reached};
use nas_core::{Done, Received, Spent};
use refusals::Refusal;

// What an answer, or a part of one, is shown as.
pub trait Shows {
    ghost shows: { Self → Shown };

    fn show(self) -> Shown
        ensures { result ≡ shows self };
}

impl<T: Shows, E: Shows> Shows for Result<T, E> {
    ghost shows = { shown_result T.shows E.shows };

    fn show(self) -> Shown {
        match self {
            Ok(x) => x.show(),
            Err(e) => e.show(),
        }
    }
}

impl Shows for Refusal {
    ghost shows = { λ r. shown (refusal (number_of r)) };

    fn show(self) -> Shown {
        Shown {
            number: self.number(),
            ..Shown::default()
        }
    }
}

// Refusal 8 hands over a message, and carries a number.
impl<M: Shows> Shows for OpenError<M> {
    ghost shows = { shown_error M.shows };

    fn show(self) -> Shown {
        match self {
            OpenError::Refused(refusal) => refusal.show(),
            OpenError::Content(message, refusal) => Shown {
                number: 8,
                carried: refusal.number(),
                ..message.show()
            },
        }
    }
}

impl Shows for () {
    ghost shows = { λ u. shown (change_values (told_change (Ok u))) };

    fn show(self) -> Shown {
        Shown::default()
    }
}

impl Shows for Spent {
    ghost shows = { λ s. shown (use_values (told_use (Ok s))) };

    fn show(self) -> Shown {
        Shown {
            count: self.count,
            wrote: self.wrote,
            ..Shown::default()
        }
    }
}

impl Shows for Received {
    ghost shows = { λ m. shown (open_values (told_open (Ok (record { message = m; second = 0 })))) };

    fn show(self) -> Shown {
        Shown {
            header_type: self.header_type,
            count: self.count,
            distance: self.distance,
            wrote: self.wrote,
            ..Shown::default()
        }
    }
}

impl Shows for Opened {
    ghost shows = { λ o. shown (open_values (told_open (Ok o))) };

    fn show(self) -> Shown {
        Shown {
            second: self.second,
            ..self.message.show()
        }
    }
}

impl Shows for EpsReceived {
    ghost shows = { λ m. shown (eps_open_values (told_eps_open (Ok m))) };

    fn show(self) -> Shown {
        Shown {
            count: self.count,
            distance: self.distance,
            wrote: self.wrote,
            ..Shown::default()
        }
    }
}

impl Shows for MadeOctet {
    ghost shows = { λ m. shown (octet_values (told_octet (Ok m))) };

    fn show(self) -> Shown {
        Shown {
            octet: self.octet,
            count: self.count,
            ..Shown::default()
        }
    }
}

impl Shows for Reached {
    ghost shows = { λ r. shown (verify_values (told_verify (Ok r))) };

    fn show(self) -> Shown {
        Shown {
            count: self.count,
            distance: self.distance,
            ..Shown::default()
        }
    }
}

// As an open, with the connection that the message was taken on: a refusal but 8 has none.
impl Shows for AcrossAnswer {
    ghost shows = { λ a. shown_on a.connection (open_values (told_open a.answer)) };

    fn show(self) -> Shown {
        let shown = self.answer.show();
        match self.answer {
            Err(OpenError::Refused(_)) => shown,
            _ => Shown {
                connection: self.connection.bearer(),
                ..shown
            },
        }
    }
}

// A number that is no direction or no connection is refused so, before all else; 18 is the last refusal of the calls below.
#[derive(Clone, Copy)]
pub struct NoSuchWay;

impl Shows for NoSuchWay {
    ghost shows = { λ _. no_such_way };

    fn show(self) -> Shown {
        Shown {
            number: 19,
            ..Shown::default()
        }
    }
}

pub fn no_such_way<X>(context: X) -> Done<NoSuchWay, X>
    ensures { result.context ≡ context }
{
    Done {
        answer: NoSuchWay,
        context,
    }
}

impl<A: Shows> From<Done<A, nas_5gs::Context>> for Left {
    ghost from_gives = { λ done left. left ≡ record { answer = A.shows done.answer; context = done.context } };

    fn from(done: Done<A, nas_5gs::Context>) -> Left {
        Left {
            answer: done.answer.show(),
            context: done.context,
        }
    }
}

impl<A: Shows> From<Done<A, nas_eps::Context>> for EpsLeft {
    ghost from_gives = { λ done left. left ≡ record { answer = A.shows done.answer; context = done.context } };

    fn from(done: Done<A, nas_eps::Context>) -> EpsLeft {
        EpsLeft {
            answer: done.answer.show(),
            context: done.context,
        }
    }
}

impl Left {
    // The answer alone, with the context kept where it lay.
    pub(crate) fn keep(self, context: &mut nas_5gs::Context) -> Shown
        ensures { (result ≡ self.answer) × (context.new ≡ self.context) }
    {
        *context = self.context;
        self.answer
    }
}
