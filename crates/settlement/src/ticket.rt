// The settlement ticket.
ghost use Rattle.std.specs.Prelude.{◌≡◌, false, IsTrue};

use tables::Refusal;

// A bench in play owes its settlement: whoever holds the ticket has yet to settle or abandon it.
// `make` alone issues a ticket, and `settle` and `abandon` alone spend it. Only a spent ticket may be let go, and no
// promise says of a ticket that a host has that it is spent: so the check refuses a host that forgets its ticket, and
// one that gives it up twice has none to give. It bears no mark of its bench.
pub struct Ticket {
    spent: bool,
}

impl Drop for Ticket {
    fn drop(self)
        requires { IsTrue self.spent }
    {
        let Ticket { spent: _ } = self;
    }
}

impl Ticket {
    pub(crate) fn issue() -> Ticket
        ensures { result.spent ≡ false }
    {
        Ticket { spent: false }
    }

    pub(crate) fn spend(mut self) {
        self.spent = true;
    }
}

// A settle that was refused: why, and the ticket, which is still to be given up.
pub struct Unsettled {
    pub refusal: Refusal,
    pub ticket: Ticket,
}
