// The public calls between a vector and a packed record.
#![tactic(auto)]

ghost use Rattle.rules.specs.Promise.{Keeps};
ghost use Rattle.rules.specs.CallPack.{pack_call};
ghost use Rattle.rules.specs.CallUnpack.{unpack_call};

use answering::{hand_out, refuse};
use rules::{Answer, Kind};
use unpacking::RecordFault;
use vector_calls::check;

/// Vector to packed record: 1, 4, 3.
pub fn pack(v: &[u16], out: &mut [u8]) -> Answer
    ensures { Keeps (pack_call v.now) out.old result out.new }
{
    match check(v) {
        Answer::Refused(why) => Answer::Refused(why),
        Answer::Done(_) => {
            let bytes = lengths::record_length(v.len());
            if out.len() < bytes {
                return refuse(Kind::Room, bytes);
            }
            packing::pack_into(v, out);
            Answer::Done(bytes)
        }
    }
}

/// Packed record to vector: 2 (under 2 bytes), 1, 2 (not the record's length), 4, 10, 3.
pub fn unpack(s: &[u8], out: &mut [u16]) -> Answer
    ensures { Keeps (unpack_call s.now) out.old result out.new }
{
    let mut vector = [0u16; 1024];
    match unpacking::read_vector(s, &mut vector) {
        Err(RecordFault::Length(wanted)) => refuse(Kind::InputLength, wanted),
        Err(RecordFault::LeafCount) => refuse(Kind::LeafCount, 0),
        Err(RecordFault::Entry(i)) => refuse(Kind::Entry, i),
        Err(RecordFault::Padding(place)) => refuse(Kind::Padding, place),
        Ok(n) => hand_out(&vector, n, out),
    }
}
