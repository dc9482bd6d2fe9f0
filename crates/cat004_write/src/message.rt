//! The bytes of a message.
ghost use Rattle.std.specs.Prelude.{◌≡◌, ◌≤◌, ◌++◌, ◌%◌, IfSome, pos, ◌≤ℤ◌};
ghost use Rattle.std.specs.Int.RustNames.{unsigned_abs};
ghost use Rattle.alert_states.specs.Figures.{FitsMessage, FitsOctets};
ghost use Rattle.cat004_write.specs.Messages.{HasPlace, about as about_octets, flags_of, conflict as conflict_item, conflict_of, field_specification as fspec, message, message_length, message_type as type_number, second_track as second_track_item, special as special_item, status_octet as status_number, written};

use crate::buffer::Buffer;
use alert_states::{Event, HitData, Net, Status, Subject};
use asterix_fields::{put16, put24};
use track_motion::TICKS_PER_DAY;

/// The most octets that a message is kept in.
pub const MESSAGE_ROOM: usize = 64;

/// The octets of the special purpose field, the one of its length counted.
const SPECIAL_LENGTH: u8 = 7;

/// A message: the first `len` of `bytes`.
#[derive(Clone, Copy, Debug, PartialEq, Eq)]
pub struct Message {
    pub bytes: [u8; MESSAGE_ROOM],
    pub len: u8,
}

/// The message of an event: one record of category 004.
///
/// `time` is the cycle's time in ticks of 1/128 s, and is written modulo a day. `sac` and `sic` are the
/// source that sends the message.
pub fn write_event(e: &Event, time: i64, sac: u8, sic: u8) -> Message
    requires time { pos 0 ≤ℤ time }
    requires figures { FitsMessage e.now }
    ensures bytes { written result ≡ message e.now (unsigned_abs time) sac sic }
    ensures length { result.len ≡ message_length e.now.subject.net e.now.hit }
    ensures room { result.len ≤ MESSAGE_ROOM }
{
    let subject = &e.subject;
    let mut buffer = Buffer::new();
    buffer.put(&field_specification(e));
    buffer.put(&[sac, sic, message_type(subject.net)]);
    buffer.put(&put24(time_of_day(time)));
    buffer.put(&put16(e.id));
    buffer.put(&[status_octet(e.status)]);
    buffer.put(&put16(subject.key.number));
    put_conflict(&mut buffer, subject.net, &e.hit);
    put_second_track(&mut buffer, subject);
    put_special(&mut buffer, e);
    buffer.finish()
}

/// Ticks since midnight.
fn time_of_day(time: i64) -> u32
    requires { pos 0 ≤ℤ time }
    ensures { result ≡ unsigned_abs time % TICKS_PER_DAY }
{
    (time as u64 % u64::from(TICKS_PER_DAY)) as u32
}

fn message_type(net: Net) -> u8
    ensures { result ≡ type_number net }
{
    match net {
        Net::Stca => 7,
        Net::Msaw => 4,
        Net::Apw => 5,
        Net::Apm => 8,
    }
}

fn status_octet(status: Status) -> u8
    ensures { result ≡ status_number status }
{
    match status {
        Status::First => 2,
        Status::Continuing => 4,
        Status::Ended => 6,
    }
}

/// Which items follow.
fn field_specification(e: &Event) -> [u8; 3]
    ensures { result ≡ fspec e.now }
{
    match (e.subject.net, e.hit) {
        (Net::Stca, Some(_)) => [0xDD, 0x91, 0x42],
        (Net::Stca, None) => [0xDD, 0x81, 0x42],
        (Net::Msaw | Net::Apw | Net::Apm, Some(_)) => [0xDD, 0x91, 0x02],
        (Net::Msaw | Net::Apw | Net::Apm, None) => [0xDD, 0x81, 0x02],
    }
}

/// Item 070, where there is a hit.
fn put_conflict(buffer: &mut Buffer, net: Net, hit: &Option<HitData>)
    requires room { HasPlace buffer.old 16 }
    requires figures { IfSome hit.now FitsOctets }
    ensures { buffer.new ≡ buffer.old ++ conflict_item net hit.now }
{
    if let Some(hit) = hit {
        put_figures(buffer, net, hit);
    }
}

/// The time to conflict alone, or in STCA all six figures.
fn put_figures(buffer: &mut Buffer, net: Net, hit: &HitData)
    requires room { HasPlace buffer.old 16 }
    requires figures { FitsOctets hit.now }
    ensures { buffer.new ≡ buffer.old ++ conflict_of net hit.now }
{
    match net {
        Net::Stca => put_all_figures(buffer, hit),
        Net::Msaw | Net::Apw | Net::Apm => {
            buffer.put(&[0x80]);
            buffer.put(&put24(hit.first));
        }
    }
}

fn put_all_figures(buffer: &mut Buffer, hit: &HitData)
    requires room { HasPlace buffer.old 16 }
    requires figures { FitsOctets hit.now }
    ensures { buffer.new ≡ buffer.old ++ conflict_of Net.Stca hit.now }
{
    buffer.put(&[0xFC]);
    buffer.put(&put24(hit.first));
    buffer.put(&put24(hit.closest));
    buffer.put(&put24(hit.chs));
    buffer.put(&put16(hit.mhs));
    buffer.put(&put16(hit.cvs));
    buffer.put(&put16(hit.mvs));
}

/// Item 035, in STCA.
fn put_second_track(buffer: &mut Buffer, subject: &Subject)
    requires { HasPlace buffer.old 2 }
    ensures { buffer.new ≡ buffer.old ++ second_track_item subject.now subject.now.net }
{
    if let Net::Stca = subject.net {
        buffer.put(&put16(subject.other.number));
    }
}

/// The special purpose field.
fn put_special(buffer: &mut Buffer, e: &Event)
    requires { HasPlace buffer.old 7 }
    ensures { buffer.new ≡ buffer.old ++ special_item e.now }
{
    let subject = &e.subject;
    buffer.put(&[
        SPECIAL_LENGTH,
        message_type(subject.net),
        subject.key.sac,
        subject.key.sic,
    ]);
    buffer.put(&about(subject));
    buffer.put(&[flags(&e.hit)]);
}

/// What the alert is about beside its track.
fn about(subject: &Subject) -> [u8; 2]
    ensures { result ≡ about_octets subject.now subject.now.net }
{
    match subject.net {
        Net::Stca => [subject.other.sac, subject.other.sic],
        Net::Msaw => [0, 0],
        Net::Apw | Net::Apm => put16(subject.object),
    }
}

fn flags(hit: &Option<HitData>) -> u8
    ensures { result ≡ flags_of hit.now }
{
    match hit {
        Some(hit) => hit.flags,
        None => 0,
    }
}
