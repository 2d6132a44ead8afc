// The intake: joins the deliveries of one side in room that the caller lends, and gives each message when it is whole (R10).
#![tactic(auto)]

ghost use Rattle.std.specs.Prelude.{◌≡◌, ◌++◌, ◌+◌, ◌-◌, ◌≤◌, ◌<◌, length, take, drop, get_or, Ok};
ghost use Rattle.protocol.specs.Numbers.{be};
ghost use Rattle.protocol.specs.Intake.{at_hand, take_by, SettlesTaken, TakesDelivery};

use forms::fault::Fault;
use forms::{AtHand, Delivery, Intake};

// Byte k of the bytes at hand: a held one, or one of the source.
fn byte_at(held: &[u8], src: &[u8], k: usize) -> u8
    requires { k < length held.now + length src.now }
    ensures { result ≡ get_or (held.now ++ src.now) k 0 }
{
    if k < held.len() {
        return held[k];
    }
    src[k - held.len()]
}

// The length field in the bytes at hand, of which there are a head's.
fn length_field(held: &[u8], src: &[u8]) -> u32
    requires { 5 ≤ length held.now + length src.now }
    ensures { result ≡ be (take 4 (drop 1 (held.now ++ src.now))) }
{
    wire::be::join(
        byte_at(held, src, 1),
        byte_at(held, src, 2),
        byte_at(held, src, 3),
        byte_at(held, src, 4),
    )
}

// What the bytes at hand come to, for so much room (R10.3, rows 1 to 6).
fn at_hand(held: &[u8], src: &[u8], room: usize) -> Result<AtHand, Fault>
    ensures { result ≡ at_hand room (held.now ++ src.now) }
{
    let all = held.len() + src.len();
    if all == 0 {
        return Ok(AtHand::Lacking(constants::MESSAGE_HEAD));
    }
    if room < constants::MESSAGE_HEAD {
        return Err(Fault::OUTPUT_ROOM);
    }
    if all < constants::MESSAGE_HEAD {
        return Ok(AtHand::Lacking(constants::MESSAGE_HEAD - all));
    }
    let length = length_field(held, src) as usize;
    if length < 4 || constants::MOST_LENGTH < length {
        return Err(Fault::BAD_LENGTH);
    }
    let size = length + 1;
    if room < size {
        return Err(Fault::OUTPUT_ROOM);
    }
    if all < size {
        return Ok(AtHand::Lacking(size - all));
    }
    Ok(AtHand::Whole(size))
}

// A message of `size` bytes that is whole, with the first `held` of them in the room: the others join them, and it is judged there, once.
fn take_whole(intake: Intake, src: &[u8], room: &mut [u8], held: usize, size: usize) -> Delivery
    requires { (held ≤ length room.old) × (size ≤ length room.old) × (size ≤ held + length src.now) × (size ≤ 65536) }
    ensures { SettlesTaken (take_by intake (take held room.old) src.now room.old (Ok (AtHand.Whole size))) result room.new }
{
    let more = size - held.min(size);
    wire::copy::put_bytes(&src[..more], room, held);
    match message_read::check(intake.side, &room[..size], &mut []) {
        Err(refusal) => {
            let number = refusal.fault.number();
            let place = refusal.place;
            intake.ended(number, place).refusing(number, place)
        }
        Ok(_) => {
            intake
                .reset()
                .taking(more as u32, size as u32, constants::MESSAGE_HEAD as u32)
        }
    }
}

// Takes bytes from the front of src until a message is whole or src ends. The room is the intake's own: the first `held` bytes of it wait there.
pub fn take(intake: Intake, src: &[u8], room: &mut [u8]) -> Delivery
    ensures { TakesDelivery intake src.now result room.old room.new }
{
    let len = room.len();
    if len as u64 != intake.room {
        return intake.refusing(constants::OUTPUT_ROOM, 0);
    }
    if intake.number != 0 {
        return intake.refusing(intake.number, intake.place);
    }
    let held = (intake.held as usize).min(len);
    match at_hand(&room[..held], src, len) {
        Ok(AtHand::Lacking(rest)) => {
            wire::copy::put_bytes(src, room, held);
            intake
                .holding((held + src.len()) as u32)
                .taking(src.len() as u32, 0, rest as u32)
        }
        Ok(AtHand::Whole(size)) => take_whole(intake, src, room, held, size),
        Err(fault) => {
            let number = fault.number();
            intake.ended(number, 0).refusing(number, 0)
        }
    }
}
