// Calls that use no COUNT: creation, restore, reselection, window size, reading.
ghost use Rattle.std.specs.Prelude.{◌≡◌, [], ◌≤◌, Err};
ghost use Rattle.nas_core.specs.ChangeAnswer.{told_change};
ghost use Rattle.count.specs.Rule.{resize_of};
ghost use Rattle.nas_5gs.specs.Places.{place_of, record_at, next_at, four};
ghost use Rattle.nas_5gs.specs.Leaves.{leaves};
ghost use Rattle.nas_5gs.specs.Changes.{context_with, refused_context, new_of, restore_of, kept_for, reselect_of, resized, window_of};

use crate::{Connection, Context, Direction};
use aes::Key;
use count::Record;
use nas_core::{Core, Done};
use refusals::Refusal;

fn context_with(
    integrity: u8,
    ciphering: u8,
    integrity_key: [u8; 16],
    ciphering_key: [u8; 16],
    next: [u32; 4],
) -> Context
    ensures { result ≡ context_with integrity ciphering integrity_key ciphering_key next }
{
    let core = Core {
        integrity,
        ciphering,
        integrity_key: Key::of(integrity_key),
        ciphering_key: Key::of(ciphering_key),
        size: 0,
    };
    let [a, b, c, d] = next;
    Context {
        core,
        records: [
            Record::fresh(a),
            Record::fresh(b),
            Record::fresh(c),
            Record::fresh(d),
        ],
    }
}

// What a refused creation or restore hands back: every call refuses it with 13.
fn refused_with(refusal: Refusal) -> Done<Result<(), Refusal>, Context>
    ensures { (result.answer ≡ Err refusal) × (result.context ≡ refused_context) }
{
    Done {
        answer: Err(refusal),
        context: context_with(255, 255, [0; 16], [0; 16], [0; 4]),
    }
}

impl Context {
    pub fn new(
        integrity: u8,
        ciphering: u8,
        integrity_key: [u8; 16],
        ciphering_key: [u8; 16],
    ) -> Done<Result<(), Refusal>, Context>
        ensures { leaves (told_change result.answer) result.context [] ≡ new_of integrity ciphering integrity_key ciphering_key }
    {
        if nas_core::is_unbuilt(integrity, ciphering) {
            return refused_with(Refusal::NotBuilt);
        }
        Done {
            answer: Ok(()),
            context: context_with(integrity, ciphering, integrity_key, ciphering_key, [0; 4]),
        }
    }

    // The next COUNTs: uplink and downlink of 3GPP access, then of non-3GPP access.
    pub fn restore(
        integrity: u8,
        ciphering: u8,
        integrity_key: [u8; 16],
        ciphering_key: [u8; 16],
        next: [u32; 4],
    ) -> Done<Result<(), Refusal>, Context>
        ensures { leaves (told_change result.answer) result.context [] ≡ restore_of integrity ciphering integrity_key ciphering_key next }
    {
        if nas_core::is_unbuilt(integrity, ciphering) {
            return refused_with(Refusal::NotBuilt);
        }
        if nas_core::any_over(&next) {
            return refused_with(Refusal::OutOfRange);
        }
        Done {
            answer: Ok(()),
            context: context_with(integrity, ciphering, integrity_key, ciphering_key, next),
        }
    }

    // Every record under a new size of the window.
    fn with_size(self, old: u8, new: u8) -> Context
        requires { (old ≤ 64) × (new ≤ 64) }
        ensures { result ≡ record { core = self.core; records = four (λ p. resize_of old new (record_at self p)) } }
    {
        let [a, b, c, d] = self.records;
        Context {
            core: self.core,
            records: [
                a.resize(old, new),
                b.resize(old, new),
                c.resize(old, new),
                d.resize(old, new),
            ],
        }
    }

    // The context as a reselection to this integrity code takes it: away from null integrity every late COUNT is closed, as by a new size after none.
    fn kept_for(self, integrity: u8) -> Context
        requires { self.core.size ≤ 64 }
        ensures { result ≡ kept_for self integrity }
    {
        if nas_core::away_from_null(self.core.integrity, integrity) {
            return self.with_size(0, self.core.size);
        }
        self
    }

    pub fn reselect(
        self,
        integrity: u8,
        ciphering: u8,
        integrity_key: [u8; 16],
        ciphering_key: [u8; 16],
    ) -> Done<Result<(), Refusal>, Context>
        ensures { leaves (told_change result.answer) result.context [] ≡ reselect_of self integrity ciphering integrity_key ciphering_key }
    {
        if let Err(refusal) = self.check() {
            return self.unchanged(Err(refusal));
        }
        if nas_core::is_unbuilt(integrity, ciphering) {
            return self.unchanged(Err(Refusal::NotBuilt));
        }
        let mut context = self.kept_for(integrity);
        context.core = Core {
            integrity,
            ciphering,
            integrity_key: Key::of(integrity_key),
            ciphering_key: Key::of(ciphering_key),
            size: self.core.size,
        };
        Done {
            answer: Ok(()),
            context,
        }
    }

    fn resized(self, size: u8) -> Context
        requires { (self.core.size ≤ 64) × (size ≤ 64) }
        ensures { result ≡ resized self size }
    {
        let mut context = self.with_size(self.core.size, size);
        context.core.size = size;
        context
    }

    pub fn set_window(self, size: u8) -> Done<Result<(), Refusal>, Context>
        ensures { leaves (told_change result.answer) result.context [] ≡ window_of self size }
    {
        if let Err(refusal) = self.check() {
            return self.unchanged(Err(refusal));
        }
        if 64 < size {
            return self.unchanged(Err(Refusal::WindowTooLarge));
        }
        Done {
            answer: Ok(()),
            context: self.resized(size),
        }
    }

    // 16,777,216: every COUNT is used.
    pub fn next_count(self, direction: Direction, connection: Connection) -> u32
        ensures { result ≡ next_at self (place_of direction connection) }
    {
        self.records[crate::place(direction, connection)].next
    }

    pub fn window(self) -> u8
        ensures { result ≡ self.core.size }
    {
        self.core.size
    }

    pub fn integrity(self) -> u8
        ensures { result ≡ self.core.integrity }
    {
        self.core.integrity
    }

    pub fn ciphering(self) -> u8
        ensures { result ≡ self.core.ciphering }
    {
        self.core.ciphering
    }
}
