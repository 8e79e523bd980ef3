//! The line to the host: halts, the lock, and what is left of the exchange.
ghost use Rattle.std.specs.Prelude.{◌≡◌, ◌≢◌, ◌<◌, ℕ, List, Some, true};
ghost use Rattle.bot_machine.specs.Cases.{IsPossible};
ghost use Rattle.scsi.specs.Rules.{Intention};
ghost use Rattle.spec.specs.Exchange.{after_request, at_rest, set_halt, halted};
ghost use Rattle.spec.specs.Exchange.{outcome_for, status_for};
ghost use Rattle.spec.specs.Packets.{bytes_of};
ghost use Rattle.spec.specs.Requests.{clear_halt};
ghost use Rattle.bot_machine.specs.Refinement.{halt_of, line_of, IsInPhase};
ghost use Rattle.bot_machine.specs.Refinement.{ChangesLine, LaysOut, LaysOutAnswer, MovesOn};
ghost use Rattle.spec.specs.Cases.{IsCase, size_of_way};
ghost use Rattle.bot_machine.specs.declared.bulk_state.Phase.TheVariants.{DataOut};

use crate::exchange::{Exchange, after_failure, size_sent};
use crate::status::write_csw;
use crate::table::outcome;
use scsi_unit::Sense;
use spec::{Case, Endpoint, PacketSize, Status};

// The data of a command that is being taken: `filled` of the intended bytes came already, and `due`
// bytes are still to come.
#[derive(Drop)]
pub(crate) struct Taking {
    pub(crate) exchange: Exchange,
    pub(crate) filled: usize,
    pub(crate) due: u32,
}

// What the disk does with its bulk endpoints.
#[derive(Drop)]
pub(crate) enum Phase {
    // A command wrapper is expected.
    Command,
    // Data is taken.
    DataOut(Taking),
    // Data is sent: the buffer from one place to another. Bulk-In may be halted after it.
    DataIn { from: usize, to: usize, halt: bool },
    // The status wrapper is sent next.
    Status,
}

// The state of the line to the host.
#[derive(Drop)]
pub(crate) struct BulkState {
    pub(crate) size: PacketSize,
    pub(crate) in_halted: bool,
    pub(crate) out_halted: bool,
    pub(crate) locked: bool,
    pub(crate) phase: Phase,
    pub(crate) status: [u8; 13],
}

// Whether Bulk-In is the endpoint that is halted.
fn is_some_halt(halt: Option<Endpoint>) -> bool
    requires { halt ≢ Some Endpoint.Out }
    ensures { halt ≡ halt_of result }
{
    halt.is_some()
}

impl BulkState {
    /// Nothing is halted, and a command wrapper is expected.
    pub(crate) fn at_rest(size: PacketSize) -> BulkState
        ensures line { (buffer : List ℕ) → line_of result buffer ≡ at_rest (bytes_of size) }
        ensures phase { (limit : ℕ) (intention : List ℕ → Intention)
            → IsInPhase limit intention result.phase }
    {
        BulkState {
            size,
            in_halted: false,
            out_halted: false,
            locked: false,
            phase: Phase::Command,
            status: [0; 13],
        }
    }

    /// Halts and locks both endpoints.
    pub(crate) fn lock(&mut self)
        ensures { self.new ≡ record self.old {
          in_halted = true;
          out_halted = true;
          locked = true;
        } }
    {
        self.in_halted = true;
        self.out_halted = true;
        self.locked = true;
    }

    // Halts an endpoint.
    fn halt(&mut self, endpoint: Endpoint)
        ensures { ChangesLine self.old (set_halt endpoint true) self.new }
    {
        match endpoint {
            Endpoint::In => self.in_halted = true,
            Endpoint::Out => self.out_halted = true,
        }
    }

    /// Ends the halt of an endpoint, unless both are locked.
    pub(crate) fn clear_halt(&mut self, endpoint: Endpoint)
        ensures { ChangesLine self.old (after_request (clear_halt endpoint)) self.new }
    {
        if self.locked {
            return;
        }
        match endpoint {
            Endpoint::In => self.in_halted = false,
            Endpoint::Out => self.out_halted = false,
        }
    }

    /// Whether an endpoint is halted.
    pub(crate) fn is_halted(&self, endpoint: Endpoint) -> bool
        ensures { (buffer : List ℕ) → result ≡ halted endpoint (line_of self.now buffer) }
    {
        match endpoint {
            Endpoint::In => self.in_halted,
            Endpoint::Out => self.out_halted,
        }
    }

    /// Expects the data of the command of an exchange.
    pub(crate) fn expect_data(&mut self, exchange: Exchange)
        ensures { self.new ≡ record self.old {
          phase = DataOut (record {
            exchange = exchange;
            filled = 0;
            due = size_of_way exchange.command.host;
          });
        } }
    {
        let due = exchange.command.host.size();
        self.phase = Phase::DataOut(Taking {
            exchange,
            filled: 0,
            due,
        });
    }

    /// Lays out what is sent: the first bytes of the buffer, a halt after them, and the status
    /// wrapper.
    pub(crate) fn lay_out(&mut self, size: usize, halt: Option<Endpoint>, status: [u8; 13])
        requires halts_in { 0 < size → halt ≢ Some Endpoint.Out }
        ensures { LaysOut self.old size halt status self.new }
    {
        self.status = status;
        if size > 0 {
            self.phase = Phase::DataIn {
                from: 0,
                to: size,
                halt: is_some_halt(halt),
            };
        } else {
            self.phase = Phase::Status;
            if let Some(endpoint) = halt {
                self.halt(endpoint);
            }
        }
    }

    /// Goes on behind the next packet of the bytes from one place to another, with a halt behind
    /// the last. The answer is where that packet ends.
    pub(crate) fn move_on(&mut self, from: usize, to: usize, halt: bool) -> usize
        requires { from < to }
        ensures { MovesOn self.old from to halt result self.new }
    {
        let end = from + (to - from).min(self.size.bytes() as usize);
        if end < to {
            self.phase = Phase::DataIn {
                from: end,
                to,
                halt,
            };
        } else {
            self.in_halted = halt;
            self.phase = Phase::Status;
        }
        end
    }

    /// Concludes an exchange that ends in this case: lays out the first bytes of the buffer, the
    /// halt of the case, and the status.
    pub(crate) fn conclude(&mut self, exchange: &Exchange, case: Case, size: usize, status: Status)
        requires possible { IsPossible case exchange.now.command.host exchange.now.intended }
        requires halts_in { 0 < size
            → (outcome_for case exchange.now.command exchange.now.intended).halt
            ≢ Some Endpoint.Out }
        ensures { LaysOut self.old size
            (outcome_for case exchange.now.command exchange.now.intended).halt
            (status_for case exchange.now.command exchange.now.intended status) self.new }
    {
        let told = outcome(case, exchange.command.host, exchange.intended);
        let status = write_csw(exchange.command.tag, told.residue, status);
        self.lay_out(size, told.halt, status);
    }

    /// Answers the command of an exchange: lays out how many bytes of the buffer it sends, or that
    /// it failed.
    pub(crate) fn answer(&mut self, exchange: &Exchange, answer: &Result<usize, Sense>)
        requires { IsCase exchange.now.case exchange.now.command.host exchange.now.intended }
        ensures { LaysOutAnswer self.old exchange.now answer.now self.new }
    {
        match answer {
            Ok(size) => {
                let size = size_sent(exchange.case, *size);
                self.conclude(exchange, exchange.case, size, Status::Passed);
            }
            Err(_) => self.conclude(exchange, after_failure(exchange.case), 0, Status::Failed),
        }
    }
}
