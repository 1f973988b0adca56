// Field numbers, under the names that the definitions (specs/Fields.antt) have: Class-flags is CLASS_FLAGS. Those that code asks for.
#![tactic(auto)]

// StringTableTypes
pub const STRING_TABLE_TYPES_RECORD: u32 = 1;

pub const STRING_TABLE_TYPES_LOCAL_NAME: u32 = 5;

// Record
pub const RECORD_RANGE: u32 = 1;

pub const RECORD_PREDEFINED_INDEX: u32 = 2;

pub const RECORD_OPERATION: u32 = 3;

pub const RECORD_SUBSTRING_INDEX: u32 = 4;

pub const RECORD_REPLACE_CHAR: u32 = 5;

pub const RECORD_STRING: u32 = 6;

// Type
pub const TYPE_ARGUMENT: u32 = 2;

pub const TYPE_NULLABLE: u32 = 3;

pub const TYPE_CLASS_NAME: u32 = 6;

// Type.Argument
pub const TYPE_ARGUMENT_PROJECTION: u32 = 1;

pub const TYPE_ARGUMENT_TYPE: u32 = 2;

pub const TYPE_ARGUMENT_TYPE_ID: u32 = 3;

// TypeTable
pub const TYPE_TABLE_TYPE: u32 = 1;

pub const TYPE_TABLE_FIRST_NULLABLE: u32 = 2;

// Class
pub const CLASS_FLAGS: u32 = 1;

pub const CLASS_FQ_NAME: u32 = 3;

pub const CLASS_CONSTRUCTOR: u32 = 8;

pub const CLASS_FUNCTION: u32 = 9;

pub const CLASS_PROPERTY: u32 = 10;

pub const CLASS_TYPE_ALIAS: u32 = 11;

pub const CLASS_TYPE_TABLE: u32 = 30;

// Package
pub const PACKAGE_FUNCTION: u32 = 3;

pub const PACKAGE_PROPERTY: u32 = 4;

pub const PACKAGE_TYPE_ALIAS: u32 = 5;

// Constructor
pub const CONSTRUCTOR_FLAGS: u32 = 1;

pub const CONSTRUCTOR_VALUE_PARAMETER: u32 = 2;

pub const CONSTRUCTOR_CONSTRUCTOR_SIGNATURE: u32 = 100;

// Function
pub const FUNCTION_NAME: u32 = 2;

pub const FUNCTION_RETURN_TYPE: u32 = 3;

pub const FUNCTION_RECEIVER_TYPE: u32 = 5;

pub const FUNCTION_VALUE_PARAMETER: u32 = 6;

pub const FUNCTION_RETURN_TYPE_ID: u32 = 7;

pub const FUNCTION_RECEIVER_TYPE_ID: u32 = 8;

pub const FUNCTION_FLAGS: u32 = 9;

pub const FUNCTION_METHOD_SIGNATURE: u32 = 100;

// Property
pub const PROPERTY_NAME: u32 = 2;

pub const PROPERTY_RETURN_TYPE: u32 = 3;

pub const PROPERTY_RECEIVER_TYPE: u32 = 5;

pub const PROPERTY_GETTER_FLAGS: u32 = 7;

pub const PROPERTY_SETTER_FLAGS: u32 = 8;

pub const PROPERTY_RETURN_TYPE_ID: u32 = 9;

pub const PROPERTY_RECEIVER_TYPE_ID: u32 = 10;

pub const PROPERTY_FLAGS: u32 = 11;

pub const PROPERTY_PROPERTY_SIGNATURE: u32 = 100;

// TypeAlias
pub const TYPE_ALIAS_FLAGS: u32 = 1;

pub const TYPE_ALIAS_NAME: u32 = 2;

pub const TYPE_ALIAS_UNDERLYING_TYPE: u32 = 4;

pub const TYPE_ALIAS_UNDERLYING_TYPE_ID: u32 = 5;

pub const TYPE_ALIAS_EXPANDED_TYPE: u32 = 6;

pub const TYPE_ALIAS_EXPANDED_TYPE_ID: u32 = 7;

// ValueParameter
pub const VALUE_PARAMETER_FLAGS: u32 = 1;

pub const VALUE_PARAMETER_NAME: u32 = 2;

pub const VALUE_PARAMETER_TYPE: u32 = 3;

pub const VALUE_PARAMETER_VARARG_ELEMENT_TYPE: u32 = 4;

pub const VALUE_PARAMETER_TYPE_ID: u32 = 5;

pub const VALUE_PARAMETER_VARARG_ELEMENT_TYPE_ID: u32 = 6;

// JvmMethodSignature
pub const JVM_METHOD_SIGNATURE_NAME: u32 = 1;

pub const JVM_METHOD_SIGNATURE_DESC: u32 = 2;

// JvmPropertySignature
pub const JVM_PROPERTY_SIGNATURE_FIELD: u32 = 1;

pub const JVM_PROPERTY_SIGNATURE_GETTER: u32 = 3;

pub const JVM_PROPERTY_SIGNATURE_SETTER: u32 = 4;

// What omitted flags are, of declarations; of parameters and accessors.
pub const OMITTED_FLAGS: u64 = 6;

pub const OMITTED_SMALL_FLAGS: u64 = 0;
