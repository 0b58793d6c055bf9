//! The replies of a collector.

ghost use Rattle.std.specs.Prelude.{◌≡◌, ◌<◌, ◌≤◌, ◌^◌, ◌++◌, IsTrue, IfOk, OnOk, length};
ghost use Rattle.chk_bytes.specs.Stems.{is_stem};
ghost use Rattle.chk_chunk.specs.Posts.{post_limit};
ghost use Rattle.chk_http_grammar.specs.Messages.{IsReply, ack_of, ack_text, written_reply};
ghost use Rattle.chk_http.specs.Written.{is_answer_code, phrase_of};
ghost use Rattle.chk_sink.specs.Closes.{OnceDone};
ghost use Rattle.chk_collector.specs.Outcomes.{line, sink_fault_text};
ghost use Rattle.chk_collector.specs.Replies.{body_by, code_by, IsReplyBy};

use chk_bytes::{Bytes, NoMemory, Stem, put_decimal};
use chk_http::write_reply;
use chk_sink::SinkFault;
use std::alloc::Global;

/// Appends the line of a sink and a length, at most 126 bytes.
pub(crate) fn put_line(lines: &mut Bytes, stem: &Stem, number: u64) -> Result<(), NoMemory>
    ensures ok { OnOk result (lines.new ≡ lines.old ++ ack_text (ack_of stem.now number)) }
    ensures short { length (ack_text (ack_of stem.now number)) ≤ 126 }
    ensures of_sink { IsTrue (is_stem stem.now) }
    ensures wide { number < 2 ^ 64 }
{
    let _sound = stem.number();
    stem.write(lines)?;
    lines.push_all(b" ")?;
    put_decimal(lines, number)?;
    lines.push_all(b"\n")
}

/// The reply to a request that isn't in the grammar: its code, and a line with the fault's name.
pub(crate) fn refusal(alloc: Global, code: u16, name: &str) -> Result<Bytes, NoMemory>
    requires answered { IsTrue (is_answer_code code) }
    requires short { length name.now ≤ 64 }
    ensures written { IfOk result (λ bytes. bytes ≡ written_reply code (phrase_of code) (line name.now)) }
    ensures accepted { IfOk result (IsReply code (line name.now)) }
{
    let mut line = Bytes::new(alloc);
    line.push_all(name.as_bytes())?;
    line.push_all(b"\n")?;
    write_reply(alloc, code, line.as_slice())
}

/// The reply with these lines, or with the line of the sinks' fault.
pub(crate) fn reply(
    alloc: Global,
    done: Result<(), SinkFault>,
    lines: &[u8],
) -> Result<Bytes, NoMemory>
    ensures written { IfOk result (IsReplyBy done lines.now) }
    ensures accepted { IfOk result (λ bytes. OnceDone done (length lines.now ≤ post_limit)
        → IsReply (code_by done) (body_by done lines.now) bytes) }
{
    match done {
        Ok(()) => write_reply(alloc, 200, lines),
        Err(SinkFault::NoMemory) => Err(NoMemory),
        Err(fault) => {
            let line = fault_line(alloc, &fault)?;
            write_reply(alloc, 503, line.as_slice())
        }
    }
}

// The line that tells the fault.
fn fault_line(alloc: Global, fault: &SinkFault) -> Result<Bytes, NoMemory>
    ensures text { IfOk result (λ text. text ≡ line (sink_fault_text fault.now)) }
    ensures short { IfOk result (λ text. length text ≤ post_limit) }
{
    let mut line = Bytes::new(alloc);
    match fault {
        SinkFault::Outside { call } => {
            line.push_all(b"outside ")?;
            line.push_all(call.name().as_bytes())?;
        }
        SinkFault::Damaged { name, at } => {
            line.push_all(b"damaged ")?;
            line.push_all(name.as_str().as_bytes())?;
            line.push_all(b" ")?;
            put_decimal(&mut line, *at)?;
        }
        SinkFault::Spent { born } => {
            line.push_all(b"spent ")?;
            put_decimal(&mut line, *born)?;
        }
        SinkFault::NoMemory => {}
    }
    line.push_all(b"\n")?;
    Ok(line)
}
