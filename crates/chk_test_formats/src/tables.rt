//! Bytes and what is read of them: by hand, and as Hadoop's `WritableUtils` writes and reads them.
use crate::answers::{answers, answers_each};
use crate::texts::repeated;
use chk_bytes::Bytes;
use std::alloc::Global;
use std::test::Fail;

// Numbers as Hadoop writes them, and in other spellings.
const VINTS: &str = "\
%00 => 0 1
%22 => 34 1
%7F => 127 1
%8F%80 => 128 2
%8F%c8 => 200 2
%8E%01%00 => 256 3
%8D%01%00%00 => 65536 4
%8C%7F%FF%FF%FF => 2147483647 5
%8C%00%00%00%22 => 34 5
%88%00%00%00%00%00%00%00%22%01 => 34 9
 => Short
%8C%80 => Short
%87 => Short
%87%00 => Negative
%90 => Negative
%FF => Negative
%8C%80%00%00%00 => TooLarge
%88%FF%FF%FF%FF%FF%FF%FF%FF => TooLarge
";

const WORDS: &str = "\
/var/log/syslog => word
 => Empty
größe => word
a b%FF => NotUtf8 { at: 3 }
a%c3 => NotUtf8 { at: 1 }
ab c => NotWord { at: 2 }
a%7F%0A => NotWord { at: 1 }
";

const DECIMALS: &str = "\
0 => Some(0) Some(0)
007 => Some(7) None
9223372036854775807 => Some(9223372036854775807) Some(9223372036854775807)
9223372036854775808 => None None
00000000000000000001 => None None
 => None None
+1 => None None
";

const STEMS: &str = "\
c1.1.1 => c1 1 1 c1.1.1
c_-Z.9223372036854775807.20 => c_-Z 9223372036854775807 20 c_-Z.9223372036854775807.20
c1.01.1 => none
c1.1.0 => none
c1.1 => none
c1.1.1.1 => none
.1.1 => none
c1.1.9223372036854775808 => none
";

// Numbers, the high byte first, of two, four and eight bytes.
const NUMBERS: &str = "\
%01 => None None None
%01%02 => Some(258) None None
%03%04%05%06 => Some(772) Some(50595078) None
%07%08%09%0A%0B%0C%0D%0E => Some(1800) Some(117967114) Some(506664896818842894)
";

#[test]
fn words_and_numbers(rt: HostRuntime) -> Result<(), Fail> {
    answers_each(rt.alloc(), "vint", VINTS)?;
    answers_each(rt.alloc(), "word", WORDS)?;
    answers_each(rt.alloc(), "decimal", DECIMALS)?;
    answers_each(rt.alloc(), "stem", STEMS)?;
    answers_each(rt.alloc(), "number", NUMBERS)
}

// The key of the chunk `hello\n`, and its versions that are refused.
const KEYS: &str = "\
%01%ZZ%00%06%00%02h1%00%03Log%00%06/a.log => h1 Log /a.log none 0 6
%02%ZZ%00%0B%ZZ%00%05%00%02h1%00%03Log%00%06/a.log%00%04demo => h1 Log /a.log demo 5 11
 => Short { at: 0 }
%01%ZZ%00%06%00%02h1%00%03Log%00%06/a.lo => Short { at: 20 }
%01%ZZ%00%06%00%02h1%00%03Log%00 => Short { at: 18 }
%03 => Version { found: 3 }
%01%ZZ%00%06%00%02h%FF%00%01L%00%01n => NotUtf8 { at: 12 }
%01%ZZ%00%06%00%00 => Empty { at: 9 }
%01%ZZ%00%06%10%01 => TooLong { limit: 4096, found: 4097 }
%01%ZZ%00%00 => BeforeStart { seq: 0, len: 1 }
%01%ZZ%00%06%00%01h%00%01L%00%01n%00 => Trailing { at: 18 }
%01%80%ZZ%00 => TooHigh { seq: 9223372036854775808 }
%01%ZZ%00%06%00%02h  => NotWord { at: 12 }
%02%ZZ%00%05%ZZ%00%05 => StartHigh { start: 5, seq: 5 }
%02%ZZ%00%00%ZZ%00%00 => StartHigh { start: 0, seq: 0 }
";

const POSTS: &str = "\
%00%00%00%01%00%00%00%1A%01%ZZ%00%06%00%02h1%00%03Log%00%06/a.log%00%00%00%06hello%0A => 1 none 0 6 6
%00%00%00%00 => Empty { at: 0 }
%00%00%03%E9 => TooMany { count: 1001 }
%00%00%00%01%00%00%00%1A%01%ZZ%00%06%00%02h1%00%03Log%00%06/a.lo => Short { at: 8 }
%00%00%00%01%00%00%00%1A%01%ZZ%00%06%00%02h1%00%03Log%00%06/a.log%00%00%00%06hello => Short { at: 38 }
%00%00%00%01%00%00%00%19%01%ZZ%00%06%00%02h1%00%03Log%00%06/a.log => Short { at: 28 }
%00%00%00%01%00%00%00%1B%01%ZZ%00%06%00%02h1%00%03Log%00%06/a.log%00 => Trailing { at: 34 }
%00%00%00%01%00%00%00%12%01%ZZ%00%05%00%01h%00%01L%00%01n%00%00%00%06 => BeforeStart { seq: 5, len: 6 }
%00%00%00%01%00%00%00%12%01%ZZ%00%05%00%01h%00%01L%00%01n%00%00%00%05helloX => Trailing { at: 35 }
%00%00%00 => Short { at: 0 }
%00%00%00%01%00%00%00%1A%03%ZZ%00%06%00%02h1%00%03Log%00%06/a.log%00%00%00%06hello%0A => Version { found: 3 }
%00%00%00%01%00%00%00%1A%01%ZZ%00%06%00%02h%FF%00%03Log%00%06/a.log%00%00%00%06hello%0A => NotUtf8 { at: 20 }
%00%00%00%01%00%00%00%18%01%ZZ%00%06%00%00%00%03Log%00%06/a.log%00%00%00%06hello%0A => Empty { at: 17 }
%00%00%00%01%00%00%00%1A%01%ZZ%00%06%10%01h1%00%03Log%00%06/a.log%00%00%00%06hello%0A => TooLong { limit: 4096, found: 4097 }
%00%00%00%01%00%00%00%1A%01%ZZ%00%05%00%02h1%00%03Log%00%06/a.log%00%00%00%06hello%0A => BeforeStart { seq: 5, len: 6 }
%00%00%00%01%00%00%00%1A%01%ZZ%00%06%00%02h1%00%03Log%00%06/a.log%00%00%00%06hello%0A! => Trailing { at: 44 }
%00%00%00%01%00%00%00%1A%01%80%ZZ%00%00%02h1%00%03Log%00%06/a.log%00%00%00%06hello%0A => TooHigh { seq: 9223372036854775808 }
%00%00%00%01%00%00%00%1A%01%ZZ%00%06%00%02h %00%03Log%00%06/a.log%00%00%00%06hello%0A => NotWord { at: 20 }
%00%00%00%01%00%00%00(%02%ZZ%00%06%ZZ%00%06%00%02h1%00%03Log%00%06/a.log%00%04demo%00%00%00%06hello%0A => StartHigh { start: 6, seq: 6 }
";

#[test]
fn keys_and_posts(rt: HostRuntime) -> Result<(), Fail> {
    answers_each(rt.alloc(), "key", KEYS)?;
    answers_each(rt.alloc(), "post", POSTS)
}

// The first row is the header of c1.1.1. Behind it are all spellings of a class's length.
const HEADERS: &str = "\
SEQ%06%CL%CL%ZZ%MK => 96
SEQ%06%CL%CL%ZZ%MKmore => 96
SEQ%06%CL%CL%00%00%00%00%00%01%01a%01b%MK => 100
SEQ%06%8F%22org.apache.hadoop.io.BytesWritable%CL%ZZ%MK => 97
SEQ%06%8E%00%22org.apache.hadoop.io.BytesWritable%CL%ZZ%MK => 98
SEQ%06%8D%00%00%22org.apache.hadoop.io.BytesWritable%CL%ZZ%MK => 99
SEQ%06%8C%00%00%00%22org.apache.hadoop.io.BytesWritable%CL%ZZ%MK => 100
SEQ%06%8B%00%00%00%00%22org.apache.hadoop.io.BytesWritable%CL%ZZ%MK => 101
SEQ%06%8A%00%00%00%00%00%22org.apache.hadoop.io.BytesWritable%CL%ZZ%MK => 102
SEQ%06%89%ZZ%22org.apache.hadoop.io.BytesWritable%CL%ZZ%MK => 103
SEQ%06%88%ZZ%00%22org.apache.hadoop.io.BytesWritable%CL%ZZ%MK => 104
 => Short
SE => Short
SEX => NotSeq
SEQ%03 => Version { found: 3 }
SEQ%06%23 => OtherClass
SEQ%06%19org.apache.hadoop.io.Text => OtherClass
SEQ%06%CL%19org.apache.hadoop.io.Text%01 => OtherClass
SEQ%06%CL%8E%00 => Short
SEQ%06%CL%8E%01 => OtherClass
SEQ%06%CL%CL%01 => Compressed
SEQ%06%CL%CL%00%01 => Compressed
SEQ%06%CL%CL%00%00%80 => BadMeta { at: 76 }
SEQ%06%CL%CL%00%00%00%00%00%01%FF => BadMeta { at: 80 }
SEQ%06%CL%CL%00%00%00%00%00%01%00%8C%80 => BadMeta { at: 81 }
SEQ%06%CL%CL%00%00%00%00%00%01%8C%7F => Short
SEQ%06%CL%CL%ZZ%0A%F0%97%25%E9%50%F7%0F%42%F5%31%ED%F6%35%B2 => Short
";

// One record of `hello\n`, cut, and one between sync entries.
const RECORDS: &str = "\
SEQ%06%CL%CL%ZZ%MK%00%00%00%28%00%00%00%1E%00%00%00%1A%01%ZZ%00%06%00%02h1%00%03Log%00%06/a.log%00%00%00%06hello%0A => 1 End
SEQ%06%CL%CL%ZZ%MK%00%00%00%28%00%00%00%1E%00%00%00%1A%01%ZZ%00%06%00%02h1%00%03Log%00%06/a.log%00%00%00%06hello => 0 Damaged { at: 96, why: Torn }
SEQ%06%CL%CL%ZZ%MK%00 => 0 Damaged { at: 96, why: Torn }
SEQ%06%CL%CL%ZZ%MK => 0 End
SEQ%06%CL%CL%ZZ => Header(Short)
 => Header(Short)
SEX => Header(NotSeq)
SEQ%06%CL%CL%ZZ%MK%FF%FF%FF%FF%MK%00%00%00%28%00%00%00%1E%00%00%00%1A%01%ZZ%00%06%00%02h1%00%03Log%00%06/a.log%00%00%00%06hello%0A%FF%FF%FF%FF%MK => 1 End
";

// What stands behind a record and a sync entry, and how it is damaged.
const DAMAGE: &str = "\
%00%00%00 => 116 164 26 6, twice Damaged { at: 184, why: Torn }
%80%00%00%00 => 116 164 26 6, twice Damaged { at: 184, why: BadLength }
%FF%FF%FF%FF%ZZ%ZZ%00%00%00%00 => 116 164 26 6, twice Damaged { at: 184, why: BadMarker }
%FF%FF%FF%FF%0A%F0%97%25%E9%50%F7%0F%42%F5%31%ED%F6%35%B2 => 116 164 26 6, twice Damaged { at: 184, why: Torn }
%00%00%00%08%00%00%00%03 => 116 164 26 6, twice Damaged { at: 184, why: BadLength }
%00%00%00%08%00%00%00%05 => 116 164 26 6, twice Damaged { at: 184, why: BadLength }
%00%00%00%08%00%00%00%04%00%00%00 => 116 164 26 6, twice Damaged { at: 184, why: Torn }
%00%00%00%08%00%00%00%04%00%00%00%01%00%00%00%00 => 116 164 26 6, twice Damaged { at: 184, why: BadLength }
%00%00%00%08%00%00%00%04%00%00%00%00%00%00%00%01 => 116 164 26 6, twice Damaged { at: 184, why: BadLength }
";

// A limit of 64 bytes, one of 65, and a file byte by byte.
const FED_64: &str = "\
SEQ%06%CL%CL%ZZ%MK%00%00%00%41%00%00%00%1E%00%00%00%1A%01%ZZ%00%06%00%02h1%00%03Log%00%06/a.log%00%00%00%1F0123456789012345678901234567890 => Long { at: 96, need: 65 }
SEX => Header(NotSeq)
SEQ%06%CL%CL%ZZ%MK%FF%FF%FF%FF%ZZ%ZZ%00%00%00%00 => Damaged { at: 96, why: BadMarker }
";

const FED_65: &str = "\
SEQ%06%CL%CL%ZZ%MK%00%00%00%41%00%00%00%1E%00%00%00%1A%01%ZZ%00%06%00%02h1%00%03Log%00%06/a.log%00%00%00%1F0123456789012345678901234567890 => 96 169 26 31
";

const FED_SLOWLY: &str = "\
SEQ%06%CL%CL%ZZ%MK%00%00%00%28%00%00%00%1E%00%00%00%1A%01%ZZ%00%06%00%02h1%00%03Log%00%06/a.log%00%00%00%06hello%0A => 96 144 26 6, More, 144 0
SEQ%06%CL%CL%00%00%00%00%00%03%01a%00%8F%02bc%03def%8E%00%01g%01h%MK => More, More, 113 0
";

// The record that is ahead with its lengths, the place behind it and how many bytes are left; or none is.
const PASSED: &str = "\
SEQ%06%CL%CL%ZZ%MK%00%00%00%28%00%00%00%1E%00%00%00%1A%01%ZZ%00%06%00%02h1%00%03Log%00%06/a.log%00%00%00%06 => 96 144 26 6, 144 0
SEQ%06%CL%CL%ZZ%MK%00%00%00%28%00%00%00%1E%00%00%00%1A%01%ZZ%00%06%00%02h1%00%03Log%00%06/a.log%00%00%00%06hel => 96 144 26 6, 144 0
SEQ%06%CL%CL%ZZ%MK%00%00%00%28%00%00%00%1E%00%00%00%1A%01%ZZ%00%06%00%02h1%00%03Log%00%06/a.log%00%00%00%06hello => 96 144 26 6, 144 0
SEQ%06%CL%CL%ZZ%MK%FF%FF%FF%FF%MK%00%00%00%28%00%00%00%1E%00%00%00%1A%01%ZZ%00%06%00%02h1%00%03Log%00%06/a.log%00%00%00%06hello => 116 164 26 6, 164 0
SEQ%06%CL%CL%ZZ%MK%00%00%00%28%00%00%00%1E%00%00%00%1A%01%ZZ%00%06%00%02h1%00%03Log%00%06/a.log%00%00%00%06hello%0A => none
SEQ%06%CL%CL%ZZ%MK%00%00%00%28%00%00%00%1E%00%00%00%1A%01%ZZ%00%06%00%02h1%00%03Log%00%06/a.log%00%00%00 => none
SEQ%06%CL%CL%ZZ%MK%00%00%00%28%00%00%00%1E%00%00%00%1A%01 => none
SEQ%06%CL%CL%ZZ%MK%00%00%00%28%00%00%00%1E%00%00%00%1A%01%ZZ%00%06%00%02h1%00%03Log%00%06/a.log%00%00%00%07hello => none
SEQ%06%CL%CL%ZZ%MK%00%00%00%28%00%00%00%1F%00%00%00%1A%01%ZZ%00%06%00%02h1%00%03Log%00%06/a.log%00%00%00%06hello => none
SEQ%06%CL%CL%ZZ%MK%00%00%00%41%00%00%00%1E%00%00%00%1A%01%ZZ%00%06%00%02h1%00%03Log%00%06/a.log%00%00%00%1F01234 => none
SEQ%06%CL%CL%ZZ%MK => none
SEQ%06%CL => none
";

const SALVAGED: &str = "\
SEQ%06%CL%CL%ZZ%MK%7F%00%00%28%00%00%00%1E%00%00%00%1A%01%ZZ%00%06%00%02h1%00%03Log%00%06/a.log%00%00%00%06hello%0A => skipped 96 144
";

#[test]
fn files_in_pieces(rt: HostRuntime) -> Result<(), Fail> {
    answers_each(rt.alloc(), "fed 64", FED_64)?;
    answers_each(rt.alloc(), "fed 65", FED_65)?;
    answers_each(rt.alloc(), "fed slowly", FED_SLOWLY)?;
    answers_each(rt.alloc(), "passed", PASSED)?;
    answers_each(rt.alloc(), "salvaged", SALVAGED)
}

#[test]
fn files(rt: HostRuntime) -> Result<(), Fail> {
    answers_each(rt.alloc(), "header", HEADERS)?;
    answers_each(rt.alloc(), "records", RECORDS)?;
    answers_each(rt.alloc(), "damage", DAMAGE)
}

const REQUESTS: &str = "\
GET / HTTP/1.1%CR%CR => 404 BadPath
PUT / HTTP/1.1%CR%CR => 404 BadPath
GET /acks? HTTP/1.1%CR%CR => 404 BadPath
GET /acksx HTTP/1.1%CR%CR => 404 BadPath
POST /chukwa/ HTTP/1.1%CR%CR => 404 BadPath
PUT /chukwa HTTP/1.1%CR%CR => 405 BadMethod
post /chukwa HTTP/1.1%CR%CR => 405 BadMethod
POST /acks?x HTTP/1.1%CR%CR => 405 BadMethod
GET /acks HTTP/1.1%CR%CR => 400 BadLine
GET /acks?c1.1.1& HTTP/1.1%CR%CR => 400 BadLine
GET /acks?c1.01.1 HTTP/1.1%CR%CR => 400 BadLine
POST /chukwa HTTP/1.1%CR%CR => 411 NoLength
POST /chukwa HTTP/1.1%CRTransfer-Encoding: chunked%CRContent-Length: 0%CR%CR => 411 NoLength
GET /acks?c1.1.1 HTTP/1.0%CR%CR => 200 Acks
GET /acks?c1.1.1 HTTP/1.1%0A%0A => 200 Acks
GET /acks?c1.1.1 HTTP/1.2%CR%CR => 400 BadHead
GET /acks?c1.1.1 HTTP/1.1%CRA: %00%CR%CR => 400 BadHead
GET /acks?c1.1.1 HTTP/1.1%CRA: b%0Dc%CR%CR => 400 BadHead
GET /acks?c1.1.1 HTTP/1.1%0DA: b%CR%CR => 400 BadHead
GET /acks?c1.1.1 HTTP/1.1%CRA : b%CR%CR => 400 BadHead
 => 400 NotYet
POST /chukwa HTTP/1.1%CRcontent-Length: 4194305%CR%CRx => 413 TooLarge
POST /chukwa HTTP/1.1%CRcontent-Length: 9223372036854775807%CR%CRx => 413 TooLarge
POST /chukwa HTTP/1.1%CRcontent-Length: 9223372036854775808%CR%CRx => 400 BadHead
POST /chukwa HTTP/1.1%CRcontent-Length: 00000000000000000001%CR%CRx => 400 BadHead
POST /chukwa HTTP/1.1%CRcontent-Length: %CR%CRx => 400 BadHead
POST /chukwa HTTP/1.1%CRcontent-Length: +1%CR%CRx => 400 BadHead
POST /chukwa HTTP/1.1%CRcontent-Length: 1 1%CR%CRx => 400 BadHead
POST /chukwa HTTP/1.1%CRcontent-Length: 1%CRContent-Length: 1%CR%CRx => 400 BadHead
POST /chukwa HTTP/1.1%CRcontent-Length: 1%CRcONTENT-lENGTH: 1%CR%CRx => 400 BadHead
POST /chukwa HTTP/1.1%CRcontent-Length: 1%CR%CRx => 200 Post
POST /chukwa HTTP/1.1%CRcontent-Length: 0000000000000000001%CR%CRx => 200 Post
POST /chukwa HTTP/1.1%CRcontent-Length: 2%CR%CRx => 400 NotYet
POST /chukwa HTTP/1.1%CRcontent-Length: 4194304%CR%CRx => 400 NotYet
";

const REPLIES: &str = "\
HTTP/1.1 200 OK%CR%CR => NoLength
HTTP/1.1 200 OK%CRContent-Length: x%CR%CR => BadHead
HTTP/1.1 200 OK%CRContent-Length: 4194305%CR%CR => TooLarge
HTTP/1.1 200 OK%CRContent-Length: 1%CR%CR => NotYet
HTTP/1.1 20 OK%CRContent-Length: 0%CR%CR => BadHead
HTTP/1.0 404%CRcontent-length: 00%CR%CRx => 404
";

const TWO_LINES: &str = "\
c1.1.1 144%0Ac9.1.1 0%0A => lines
c1.1.1 144%0A => none
";

const ONE_LINE: &str = "\
c1.1.1 144%0Ac9.1.1 0%0A => none
c1.1.1 144 => none
c1.1.1 0144%0A => none
c1.1.1 9223372036854775808%0A => none
c1.1.1  1%0A => none
c1.1 1%0A => none
";

#[test]
fn messages(rt: HostRuntime) -> Result<(), Fail> {
    answers_each(rt.alloc(), "request", REQUESTS)?;
    answers_each(rt.alloc(), "reply", REPLIES)?;
    answers_each(rt.alloc(), "no lines", " => lines")?;
    answers_each(rt.alloc(), "one line", ONE_LINE)?;
    answers_each(rt.alloc(), "two lines", TWO_LINES)
}

// A front, a piece, how often it stands there, and a back.
const LIMITS: &str = "\
request;GET /;a;16379; => 413 TooLarge
request;GET /;a;16378; => 400 NotYet
request;POST /chukwa HTTP/1.1%CRContent-Length: 0%CR;a;16336;: b%CR%CR => 413 TooLarge
request;POST /chukwa HTTP/1.1%CRContent-Length: 0%CR;a;16335;: b%CR%CR => 200 Post
request;POST /chukwa HTTP/1.1%CRContent-Length: 0%CR;a: b%CR;32;%CR => 413 TooLarge
request;POST /chukwa HTTP/1.1%CRContent-Length: 0%CR;a: b%CR;31;%CR => 200 Post
request;GET /acks?c1.1.1;&c1.1.1;64; HTTP/1.1%CR%CR => 400 BadLine
request;GET /acks?c1.1.1;&c1.1.1;63; HTTP/1.1%CR%CR => 200 Acks
word;;a;4096; => word
word;;a;4097; => TooLong { limit: 4096, found: 4097 }
collector;;x;0; => none
collector;;x;1; => fits
collector;;x;64; => fits
collector;;x;65; => none
line;; ;16384; => blank
line;; ;16385; => LongLine 6
salvaged;SEQ%06%CL%CL%ZZ%MK%7F%00%07%c8%00%00%00%1E%00%00%00%1A%01%ZZ%00%06%00%02h1%00%03Log%00%06/a.log%00%00%07%a6;%00;1958;%FF%FF%FF%FF%MK%00%00%00%28%00%00%00%1E%00%00%00%1A%01%ZZ%00%06%00%02h1%00%03Log%00%06/a.log%00%00%00%06hello%0A => entry 2116 2164 skipped 96 2096
post;;a;4194305; => TooLong { limit: 4194304, found: 4194305 }
";

// `FRONT;PIECE;TIMES;BACK`.
fn bytes_at_a_limit(alloc: Global, text: &str) -> Result<Bytes, Fail> {
    let (front, rest) = text.split_once(';').ok_or("no piece")?;
    let (piece, rest) = rest.split_once(';').ok_or("no count")?;
    let (times, back) = rest.split_once(';').ok_or("no back")?;
    repeated(alloc, front, piece, times.parse()?, back)
}

fn answers_at_a_limit(alloc: Global, row: &str) -> Result<(), Fail> {
    let (asked, wanted) = row.split_once(" => ").ok_or("no answer")?;
    let (kind, text) = asked.split_once(';').ok_or("no front")?;
    let bytes = bytes_at_a_limit(alloc, text)?;
    answers(alloc, kind, bytes.as_slice(), wanted)
}

#[test]
fn limits(rt: HostRuntime) -> Result<(), Fail> {
    for row in LIMITS.lines() {
        answers_at_a_limit(rt.alloc(), row)?;
    }
    Ok(())
}
