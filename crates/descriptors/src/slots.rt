// Where the types of functions and of parameters stand in their messages, for those that read them and those that look them up again.
use declaration_rows::Role;
use fields::{
    FUNCTION_RECEIVER_TYPE, FUNCTION_RECEIVER_TYPE_ID, FUNCTION_RETURN_TYPE,
    FUNCTION_RETURN_TYPE_ID, VALUE_PARAMETER_TYPE, VALUE_PARAMETER_TYPE_ID,
};
use schema::TypeSlot;

pub const FUNCTION_RECEIVER: TypeSlot = TypeSlot {
    inline: FUNCTION_RECEIVER_TYPE,
    indexed: FUNCTION_RECEIVER_TYPE_ID,
    role: Role::Receiver,
};

pub const FUNCTION_RETURN: TypeSlot = TypeSlot {
    inline: FUNCTION_RETURN_TYPE,
    indexed: FUNCTION_RETURN_TYPE_ID,
    role: Role::Return,
};

pub const PARAMETER: TypeSlot = TypeSlot {
    inline: VALUE_PARAMETER_TYPE,
    indexed: VALUE_PARAMETER_TYPE_ID,
    role: Role::Parameter,
};
