// Whether a receiver is there. The definition: schema's specs/Members.antt, `receiver_in`; what the reader tells: specs/told/ReceiversTold.antt.
ghost use Rattle.schema.specs.told.ReceiversTold.{ReceiverTold};

use crate::TypeSlot;
use foundation::Located;
use messages::{bytes, find};

// Is a receiver there? Its type is inline, or its index field occurs in any wire type.
pub fn has_receiver(msg: Located<'_>, slot: TypeSlot) -> bool
    ensures { ReceiverTold msg.entry.bytes.now msg.entry.base slot.inline slot.indexed result }
{
    bytes(msg, slot.inline).is_some() || find(msg, slot.indexed).is_some()
}
