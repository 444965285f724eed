// What a C or Rust program links: the association's calls, over a record in bytes that the caller lends, and the tools beside it.
// Promises: each returns as numbers the answer of the call that it makes, and leaves every lent byte as that call does; any bytes get an answer.
// Rule: RULES, parts 7 and 10 to 12, and No. 1, No. 5, No. 6, No. 9 to No. 11 and No. 13; definitions in specs/Calls.antt, the tools' in `exports_values`.
#![tactic(auto)]

ghost use Rattle.std.specs.Prelude.{◌≡◌, length, replicate};
ghost use Rattle.wire_fields.specs.Field.{packet_step};
ghost use Rattle.wire_collector.specs.Collector.{collect_of, buffer_of as listed};
ghost use Rattle.wire_request.specs.Answer.{request_of, buffer_of as requested};
ghost use Rattle.timer_rules.specs.Poll.{timer_input};
ghost use Rattle.reply_clauses.specs.After.{arrival};
ghost use Rattle.association_accept.specs.Accept.{number_of};
ghost use Rattle.handover_file.specs.Answers.{load_of};
ghost use Rattle.record_bytes.specs.Record.{opened_of};
ghost use Rattle.record_calls.specs.Timer.{timer_call};
ghost use Rattle.record_calls.specs.Reply.{replied_call, reply_call};
ghost use Rattle.record_calls.specs.Accept.{accept_call};
ghost use Rattle.record_files.specs.Save.{save_call};
ghost use Rattle.record_files.specs.Load.{loaded_by};
ghost use Rattle.salvage.specs.Salvage.{salvage_of, buffer_of as cleaned};
ghost use Rattle.calendar.specs.Calendar.{check_of};
ghost use Rattle.calendar.specs.Plan.{plan_of, buffer_of as planned};
ghost use Rattle.handover_compare.specs.Answers.{compare_of, out_of};
ghost use Rattle.exports_values.specs.Told.{salvaged_as, checked_as, planned_as, compared_as};
ghost use Rattle.exports_values.specs.Codes.{send_in};
ghost use Rattle.exports_values.specs.Decoded.{decoded_read};
ghost use Rattle.exports_values.specs.Answers.{bloom_in, collected_as, requested_as, field_as};
ghost use Rattle.exports.specs.Calls.{made, made_by, metered_by, profiled_of, timed, timed_as, told_as, replied, replied_as};
ghost use Rattle.exports.specs.Calls.{saved, saved_by, loaded, loaded_as, shown, view_of};

use answers::Refusal;
use association::NewRefusal;
use association_metered::ProfileRefusal;
use cookiestash::Dropped;
use exports_values::tools::{CCalendarAnswer, CCompared, CSalvaged};
use exports_values::{
    CDecoded, CField, CLoadAnswer, CNewAnswer, CReplied, CReplyAnswer, CSettings, CState,
    CTimerAnswer, CUid, CWritten,
};
use record_bytes::Opened;
use reply::Replied;
use reply_clauses::Stamps;
use reply_rules::Packet;
use time_types::{NtpTimestamp, PollInterval};
use timer_rules::TimerInput;
use wire_request::Request;

// The header that a program was compiled with has to have the same revision.
const REVISION: u32 = 0xBCF8_1C62;

// promise: exports.7
#[unsafe(no_mangle)]
pub extern "C" fn reckonstile_revision() -> u32
    ensures { result ≡ 0xBCF81C62 }
{
    REVISION
}

// Makes the record blank, every byte zero: 0.
// promise: exports.7
#[unsafe(no_mangle)]
pub extern "C" fn reckonstile_blank(bytes: &mut [u8]) -> u32
    ensures { (result ≡ 0) × (bytes.new ≡ replicate (length bytes.old) 0) }
{
    record_new::blank(bytes);
    0
}

// Makes a new association in the bytes: 0. A rejected one leaves them blank: 30, 33, 38. Then 31 if their number does not fit the capacity, with no change.
// promise: exports.7, exports.8
#[tactic(auto, unfolding(crate::specs::Calls::made_by))]
#[unsafe(no_mangle)]
pub extern "C" fn reckonstile_new(bytes: &mut [u8], settings: CSettings, list: &[u8]) -> CNewAnswer
    ensures { made result bytes.new ≡ made_by settings list.now bytes.old }
{
    let Some(settings) = exports_values::unpack_settings(settings) else {
        record_new::blank(bytes);
        return exports_values::new_answer(NewRefusal::BadSettings.number(), Dropped::none());
    };
    let made = record_new::new(bytes, settings, list);
    exports_values::new_answer(answers::number(made.answer), made.dropped)
}

// Makes a metered association in the bytes: 0. A rejected one leaves them blank: 30, 33 to 37. Then 31 if their number does not fit the capacity: no change.
// Kept: C has a name for each of the two calls; one body for both would take the call, its refusal and their definitions as parameters, and be longer.
// promise: exports.7, exports.8
#[tactic(auto, unfolding(crate::specs::Calls::metered_by))]
#[unsafe(no_mangle)]
pub extern "C" fn reckonstile_metered(
    bytes: &mut [u8],
    settings: CSettings,
    list: &[u8],
) -> CNewAnswer
    ensures { made result bytes.new ≡ metered_by settings list.now bytes.old }
{
    let Some(settings) = exports_values::unpack_settings(settings) else {
        record_new::blank(bytes);
        return exports_values::new_answer(ProfileRefusal::BadSettings.number(), Dropped::none());
    };
    let made = record_new::metered(bytes, settings, list);
    exports_values::new_answer(answers::number(made.answer), made.dropped)
}

// The number that `reckonstile_metered` returns if the number of bytes fits the capacity; there is no record.
// promise: exports.7
#[tactic(auto, unfolding(crate::specs::Calls::profiled_of))]
#[unsafe(no_mangle)]
pub extern "C" fn reckonstile_profile(settings: CSettings, list: &[u8]) -> u32
    ensures { result ≡ profiled_of settings list.now }
{
    let Some(settings) = exports_values::unpack_settings(settings) else {
        return u32::from(ProfileRefusal::BadSettings.number());
    };
    u32::from(answers::number(association_metered::profile(settings, list)))
}

// The timer: 20 to 24, 31, 32.
// promise: exports.7
#[unsafe(no_mangle)]
pub extern "C" fn reckonstile_timer(
    bytes: &mut [u8],
    time: u64,
    desired: PollInterval,
    id: u64,
    uid: CUid,
    buffer: &mut [u8],
) -> CTimerAnswer
    ensures { timed result bytes.new buffer.new
        ≡ timed_as (timer_call bytes.old (timer_input time desired id uid.bytes) buffer.old) }
{
    // Kept: an array of a field goes into a struct by a name of its own. Straight was tried: the checker says that it does not cover that form.
    let uid = uid.bytes;
    let input = TimerInput {
        time,
        desired,
        id,
        uid,
    };
    CTimerAnswer::from(record_calls::polls::timer(bytes, input, buffer))
}

fn told(out: Replied) -> CReplied
    ensures { result ≡ told_as out }
{
    CReplied {
        answer: CReplyAnswer::from(out.answer),
        dropped: out.dropped,
    }
}

// A reply of V3 or V4, as bytes: 0 to 14, 32, 33.
// promise: exports.7, exports.8
#[unsafe(no_mangle)]
pub extern "C" fn reckonstile_reply(
    bytes: &mut [u8],
    packet: &[u8],
    end: usize,
    decrypted: &[u8],
    list: &[u8],
    t1: NtpTimestamp,
    t4: NtpTimestamp,
    time: u64,
) -> CReplied
    ensures { replied result bytes.new
        ≡ replied_as (reply_call bytes.old packet.now end decrypted.now (arrival list.now t1 t4 time)) }
{
    let stamps = Stamps { t1, t4, time };
    let form = Packet {
        packet,
        end,
        decrypted,
    };
    told(record_calls::replies::reply(bytes, form, list, stamps))
}

// A V5 reply, decoded by the caller: the same numbers. One with an unknown code cannot be decoded: 1, after the test of the record.
// promise: exports.8, exports.9
#[unsafe(no_mangle)]
pub extern "C" fn reckonstile_reply_decoded(
    bytes: &mut [u8],
    d: CDecoded,
    list: &[u8],
    t1: NtpTimestamp,
    t4: NtpTimestamp,
    time: u64,
) -> CReplied
    ensures { replied result bytes.new
        ≡ replied_as (replied_call bytes.old (decoded_read d) (arrival list.now t1 t4 time)) }
{
    let stamps = Stamps { t1, t4, time };
    told(record_calls::replies::reply(bytes, exports_values::decoded_form(d), list, stamps))
}

// Whether the source may be used: 0, 40, 41, 42, 32. The record is only read.
// promise: exports.7
#[unsafe(no_mangle)]
pub extern "C" fn reckonstile_accept(bytes: &[u8], stratum: u8, local: &[u32], bloom: u32) -> u32
    ensures { result ≡ number_of (accept_call bytes.now stratum local.now (bloom_in bloom)) }
{
    let bloom = exports_values::bloom_in(bloom);
    u32::from(answers::number(record_calls::accepts::accept(bytes, stratum, local, bloom)))
}

// Writes the record as a hand-over file to the start of the buffer: 0, 32, 60. The cookies then belong to the file, and the record no longer has them.
// Kept: C has a name for each call.
// promise: exports.7
#[unsafe(no_mangle)]
pub extern "C" fn reckonstile_save(bytes: &mut [u8], out: &mut [u8]) -> CWritten
    ensures { saved result bytes.new out.new ≡ saved_by (save_call bytes.old out.old) }
{
    CWritten::from(record_files::saves::save(bytes, out))
}

// Loads a hand-over file into the bytes, with nothing sent yet: 0, and whether a version in it was of the retired kind. A rejected file leaves them blank: 61,
// 62, 63. Then 31 if their number does not fit its capacity, with no change.
// Kept: C has a name for each call.
// promise: exports.7
#[unsafe(no_mangle)]
pub extern "C" fn reckonstile_load(bytes: &mut [u8], file: &[u8]) -> CLoadAnswer
    ensures { loaded result bytes.new ≡ loaded_as (loaded_by bytes.old (load_of file.now)) }
{
    CLoadAnswer::from(record_files::loads::load(bytes, file))
}

// What a display or a log shows: 0 with the settings and the state, or 32 with those of an all-zero record.
#[repr(C)]
#[derive(Clone, Copy)]
pub struct CView {
    pub settings: CSettings,
    pub state: CState,
    pub number: u64,
}

// Kept: the number is what C gets.
fn view(opened: Opened, number: u64) -> CView
    ensures { result ≡ shown opened number }
{
    CView {
        settings: CSettings::from(opened.settings),
        state: CState::from(opened.state),
        number,
    }
}

// The settings and the state of a record as numbers; the record is only read.
// promise: exports.12
#[unsafe(no_mangle)]
pub extern "C" fn reckonstile_look(bytes: &[u8]) -> CView
    ensures { result ≡ view_of (opened_of bytes.now) }
{
    match record_bytes::open_record(bytes) {
        Some(opened) => view(opened, 0),
        None => view(record_bytes::no_record(), 32),
    }
}

// Writes the cookies among decrypted fields, as a list, to the start of the buffer: 0, 1, 31.
// Kept: C has a name for each call.
// promise: exports.10
#[unsafe(no_mangle)]
pub extern "C" fn reckonstile_collect(decrypted: &[u8], out: &mut [u8]) -> CWritten
    ensures { (result ≡ collected_as (collect_of decrypted.now (length out.old)))
        × (out.new ≡ listed decrypted.now out.old) }
{
    CWritten::from(wire_collector::collect(decrypted, out))
}

// Writes the request for a timer's 20 to the start of the buffer: 0, 50, 51, 52.
// promise: exports.10
#[unsafe(no_mangle)]
pub extern "C" fn reckonstile_write_request(
    kind: u8,
    poll: PollInterval,
    id: u64,
    upgrademark: u64,
    uid: CUid,
    cookie: &[u8],
    asked: u8,
    out: &mut [u8],
) -> CWritten
    ensures { (result ≡ requested_as (request_of (send_in kind) poll id upgrademark uid.bytes cookie.now asked (length out.old)))
        × (out.new ≡ requested (send_in kind) poll id upgrademark uid.bytes cookie.now asked out.old) }
{
    let request = Request {
        kind: exports_values::send_in(kind),
        poll,
        id,
        upgrademark,
    };
    CWritten::from(wire_request::write_request(request, uid.bytes, cookie, asked, out))
}

// What is at an offset of a packet, so that no caller has to write the walk over the fields: 0, 1.
// Kept: C has a name for each call.
// promise: exports.12
#[unsafe(no_mangle)]
pub extern "C" fn reckonstile_field_at(packet: &[u8], at: usize) -> CField
    ensures { result ≡ field_as (packet_step packet.now at) }
{
    CField::from(wire_fields::packet_field_at(packet, at))
}

// Writes the clean list of a damaged one to the start of the buffer: 0, 70.
// Kept: C has a name for each call.
// promise: exports.11
#[unsafe(no_mangle)]
pub extern "C" fn reckonstile_salvage(list: &[u8], out: &mut [u8]) -> CSalvaged
    ensures { (result ≡ salvaged_as (salvage_of list.now (length out.old)))
        × (out.new ≡ cleaned list.now out.old) }
{
    CSalvaged::from(salvage::salvage(list, out))
}

// Writes the fields in which two hand-over files differ to the start of the buffer: 0, 61 to 63, 71.
// Kept: C has a name for each call.
// promise: exports.11
#[unsafe(no_mangle)]
pub extern "C" fn reckonstile_compare(left: &[u8], right: &[u8], out: &mut [u8]) -> CCompared
    ensures { (result ≡ compared_as (compare_of left.now right.now (length out.old)))
        × (out.new ≡ out_of left.now right.now out.old) }
{
    CCompared::from(handover_compare::compare(left, right, out))
}

// Whether a poll calendar is accepted: 0, 80 to 83.
// Kept: C has a name for each call.
// promise: exports.11
#[unsafe(no_mangle)]
pub extern "C" fn reckonstile_check_calendar(
    cap: u8,
    starts: &[u16],
    repeats: &[u16],
) -> CCalendarAnswer
    ensures { result ≡ checked_as (check_of cap starts.now repeats.now) }
{
    CCalendarAnswer::from(calendar::check(cap, starts, repeats))
}

// Writes the starts of a plan to the start of the buffer: 0, 80, 81, 84, 31.
// Kept: C has a name for each call.
// promise: exports.11
#[unsafe(no_mangle)]
pub extern "C" fn reckonstile_plan_calendar(
    cap: u8,
    repeats: &[u16],
    starts: &mut [u16],
) -> CCalendarAnswer
    ensures { (result ≡ planned_as (plan_of cap repeats.now (length starts.old)))
        × (starts.new ≡ planned cap repeats.now starts.old) }
{
    CCalendarAnswer::from(calendar::plan(cap, repeats, starts))
}
