// Data.db, for C.
ghost use Rattle.std.specs.Prelude.{◌≡◌, ◌∷◌};
ghost use Rattle.common.specs.Refusals.{outcome, said_refusal};
ghost use Rattle.sstable_words.specs.Words.{words};
ghost use Rattle.sstable_data.specs.Data.{bases_in, phase_number, phase_of, flag_of, opened_in, times_in, hand_in, position_in, cursor_in, state_words, item_words, no_item, step_of, Told, showing, Shows, number_words};

use common::refusal::Refusal;
use common::times;
use common::times::Bases;
use data_cell::cells::Times;
use data_field::fields::Deletion;
use data_items::Item;
use data_walk::cursors::{Cursor, Hand, Phase};

// The bases of three words.
pub(crate) fn bases_in(b: &[u64; 3]) -> Bases
    ensures { result ≡ bases_in b.now }
{
    Bases {
        timestamp: times::biased_of(b[0]),
        local: b[1],
        ttl: b[2],
    }
}

// The words of an answer that is a number.
pub(crate) fn number_words(answer: Result<usize, Refusal>) -> [u64; 4]
    ensures { result ≡ number_words (outcome answer) }
{
    match answer {
        Ok(n) => [0, 0, 0, n as u64],
        Err(r) => {
            let fault = r.fault;
            let slice = r.slice;
            [
                u8::from(fault) as u64,
                u8::from(slice) as u64,
                r.place as u64,
                0,
            ]
        }
    }
}

// The number of a phase.
fn phase_number(phase: Phase) -> u64
    ensures { result ≡ phase_number phase }
{
    match phase {
        Phase::Partition => 0,
        Phase::First => 1,
        Phase::Items => 2,
        Phase::Values => 3,
        Phase::Prefix => 4,
        Phase::Statics => 5,
        Phase::Cells => 6,
    }
}

// The phase of a number, 0 to 6.
fn phase_of(n: u64) -> Phase
    ensures { result ≡ phase_of n }
{
    if n == 1 {
        return Phase::First;
    }
    if n == 2 {
        return Phase::Items;
    }
    if n == 3 {
        return Phase::Values;
    }
    if n == 4 {
        return Phase::Prefix;
    }
    if n == 5 {
        return Phase::Statics;
    }
    if n == 6 {
        return Phase::Cells;
    }
    Phase::Partition
}

// 0 or 1 of a word that says yes or no.
fn flag_of(x: u64) -> u8
    ensures { result ≡ flag_of x }
{
    if x == 0 {
        return 0;
    }
    1
}

// The open deletion of a state.
fn opened_in(w: &[u64; 16]) -> Deletion
    ensures { result ≡ opened_in w.now }
{
    Deletion {
        deleted: flag_of(w[3]),
        mark: times::biased_of(w[4]),
        local: w[5],
    }
}

// The times of the row in hand.
fn times_in(w: &[u64; 16]) -> Times
    ensures { result ≡ times_in w.now }
{
    Times {
        timed: flag_of(w[11]),
        timestamp: times::biased_of(w[12]),
        expires: flag_of(w[13]),
        local: w[15],
        ttl: w[14],
    }
}

// The row or marker in hand.
fn hand_in(w: &[u64; 16]) -> Hand
    ensures { result ≡ hand_in w.now }
{
    let times = times_in(w);
    Hand {
        column: w[2],
        count: w[7],
        header: w[6],
        resume: w[9] as usize,
        stop: w[10] as usize,
        present: w[8],
        times,
    }
}

// The position; one that is past any Data where the phase is none.
fn position_in(w: &[u64; 16]) -> usize
    ensures { result ≡ position_in w.now }
{
    if 6 < w[0] {
        return 18446744073709551615;
    }
    w[1] as usize
}

// The cursor of a state.
fn cursor_in(w: &[u64; 16]) -> Cursor
    ensures { result ≡ cursor_in w.now }
{
    let position = position_in(w);
    let phase = phase_of(w[0]);
    let opened = opened_in(w);
    let hand = hand_in(w);
    Cursor {
        position,
        phase,
        opened,
        hand,
    }
}

// The state of a cursor.
fn state_words(x: Cursor) -> [u64; 16]
    ensures { result ≡ state_words x }
{
    let hand = x.hand;
    let row = hand.times;
    let opened = x.opened;
    let phase = x.phase;
    [
        phase_number(phase),
        x.position as u64,
        hand.column,
        opened.deleted as u64,
        times::biased_of(opened.mark),
        opened.local,
        hand.header,
        hand.count,
        hand.present,
        hand.resume as u64,
        hand.stop as u64,
        row.timed as u64,
        times::biased_of(row.timestamp),
        row.expires as u64,
        row.ttl,
        row.local,
    ]
}

// The words of an answer that hands out an item.
fn item_words(item: Item) -> [u64; 15]
    ensures { result ≡ 0 ∷ 0 ∷ 0 ∷ item_words item }
{
    [
        0,
        0,
        0,
        item.kind,
        item.flags,
        item.column,
        item.ttl,
        times::biased_of(item.timestamp),
        times::biased_of(item.mark),
        item.local,
        item.expiry,
        times::biased_of(item.mark2),
        item.local2,
        item.offset as u64,
        item.length as u64,
    ]
}

// The words of a refusal.
fn refused_words(r: Refusal) -> [u64; 15]
    ensures { result ≡ words no_item (said_refusal r) }
{
    let fault = r.fault;
    let slice = r.slice;
    [
        u8::from(fault) as u64,
        u8::from(slice) as u64,
        r.place as u64,
        0,
        0,
        0,
        0,
        0,
        0,
        0,
        0,
        0,
        0,
        0,
        0,
    ]
}

// One step of the walk from the state, which becomes the next one where an item is handed out.
#[unsafe(no_mangle)]
pub extern "C" fn sstable_step(
    schema: &[u8],
    bases: &[u64; 3],
    data: &[u8],
    state: &mut [u64; 16],
    answer: &mut [u64; 15],
)
    ensures { Told (step_of schema.now bases.now «data».now state.old) state.old state.new answer.new }
{
    let from = cursor_in(state);
    let table = bases_in(bases);
    match from.step(schema, table, data) {
        Ok(Some((item, cursor))) => {
            *state = state_words(cursor);
            *answer = item_words(item);
        }
        Ok(None) => {
            *answer = [0, 0, 0, 0, 0, 0, 0, 0, 0, 0, 0, 0, 0, 0, 0];
        }
        Err(r) => {
            *answer = refused_words(r);
        }
    }
}

// Offset and length of the part of Data that an item of the kind, offset and length shows.
#[unsafe(no_mangle)]
pub extern "C" fn sstable_value(
    kind: u64,
    offset: usize,
    length: usize,
    data: &[u8],
    answer: &mut [u64; 2],
)
    ensures { Shows «data».now (showing kind offset length) answer.new }
{
    let item = Item {
        kind,
        flags: 0,
        column: 0,
        ttl: 0,
        timestamp: 0,
        mark: 0,
        local: 0,
        expiry: 0,
        mark2: 0,
        local2: 0,
        offset,
        length,
    };
    let len = item.value(data).len();
    if len == 0 {
        *answer = [0, 0];
        return;
    }
    *answer = [offset as u64, len as u64];
}
