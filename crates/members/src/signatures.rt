// Signatures: the two names by their indices in a message. The definitions: schema's specs/Members.antt, `signature_in` and `field_in`; what
// the readers tell: specs/told/SignaturesTold.antt.
ghost use Rattle.std.specs.Prelude.{◌≡◌, List, ℕ, None};
ghost use Rattle.std.proofs.Math.Option.{none, some};
ghost use Rattle.foundation.specs.told.Located.{told_part};
ghost use Rattle.foundation.specs.Results.{ok, ◌from◌};
ghost use Rattle.wire.specs.Wire.{cut, Message};
ghost use Rattle.schema.specs.Reading.{Scope};
ghost use Rattle.schema.specs.Members.{field_in};
ghost use Rattle.schema.specs.told.SchemaTold.{NamesOf};
ghost use Rattle.declaration_rows.specs.told.Written.{signature_by};
ghost use Rattle.members.specs.told.SignaturesTold.{NamesTold, SignedTold, ThreeTold, PropertySignedTold, AccessorsDue};

use declaration_rows::SignatureNames;
use fields::{
    JVM_METHOD_SIGNATURE_DESC, JVM_METHOD_SIGNATURE_NAME, JVM_PROPERTY_SIGNATURE_FIELD,
    JVM_PROPERTY_SIGNATURE_GETTER, JVM_PROPERTY_SIGNATURE_SETTER, PROPERTY_PROPERTY_SIGNATURE,
};
use foundation::{Context, Located};
use messages::message;
use schema::name::name_in;
use wire::WireError;

// The names that are looked up of a signature, before any that its own falls back to, or why its message isn't cut.
pub(crate) type Signed = Result<SignatureNames, WireError>;

// No signature.
fn unsigned() -> SignatureNames
    ensures { (result.name ≡ None) × (result.descriptor ≡ None) }
{
    SignatureNames {
        name: None,
        descriptor: None,
    }
}

// The names of a signature whose message is cut.
fn names_in(msg: Located<'_>, context: &Context<'_>) -> SignatureNames
    ensures { (units : List ℕ) (c : Scope) → NamesOf context.now.payload.now units context.now.ends.now context.now.notes.now context.now.tables.records c.names → (m : Message) → cut (told_part msg.entry) ≡ ok m → NamesTold context.now.payload.now units c m result }
{
    let name = name_in(msg, JVM_METHOD_SIGNATURE_NAME, context);
    let descriptor = name_in(msg, JVM_METHOD_SIGNATURE_DESC, context);
    SignatureNames { name, descriptor }
}

// The names of the signature in a field; both absent without one.
pub(crate) fn signature_in(msg: Located<'_>, number: u32, context: &Context<'_>) -> Signed
    ensures { (units : List ℕ) (c : Scope) → NamesOf context.now.payload.now units context.now.ends.now context.now.notes.now context.now.tables.records c.names → (m : Message) → cut (told_part msg.entry) ≡ ok m → SignedTold context.now.payload.now units c number m result }
{
    let Some(inner) = message(msg, number)? else {
        return Ok(unsigned());
    };
    Ok(names_in(msg.part(inner), context))
}

// The names of a signature. One that is refused has none, and its refusal is due later.
pub(crate) fn names_of(signed: Signed) -> SignatureNames
    ensures { (n : SignatureNames) → signed ≡ Ok n → result ≡ n }
{
    signed.unwrap_or(unsigned())
}

// The names of a property's backing field, from its signature message. A broken field message means no backing field.
fn field_in(msg: Located<'_>, context: &Context<'_>) -> SignatureNames
    ensures { (units : List ℕ) (c : Scope) → NamesOf context.now.payload.now units context.now.ends.now context.now.notes.now context.now.tables.records c.names → (m : Message) → cut (told_part msg.entry) ≡ ok m → (l : ℕ) → field_in c m l ≡ ok (signature_by context.now.payload.now units result, l) }
{
    let field = message(msg, JVM_PROPERTY_SIGNATURE_FIELD).unwrap_or(None);
    let Some(inner) = field else {
        return unsigned();
    };
    names_in(msg.part(inner), context)
}

// What is looked up of a property's signature message. The refusals of its accessors are due after its receiver's type.
#[derive(Clone, Copy)]
pub(crate) struct PropertyNames {
    pub field: SignatureNames,
    pub getter: Signed,
    pub setter: Signed,
}

// The refusal of a getter, else of a setter.
pub(crate) fn check_accessors(names: PropertyNames) -> Result<(), WireError>
    ensures { AccessorsDue names result }
{
    names.getter?;
    names.setter?;
    Ok(())
}

// A property without a signature message.
fn unsigned_property() -> PropertyNames
    ensures { (payload units : List ℕ) (c : Scope) → ThreeTold payload units c none result }
{
    PropertyNames {
        field: unsigned(),
        getter: Ok(unsigned()),
        setter: Ok(unsigned()),
    }
}

// The signatures in a property's signature message.
fn three_in(msg: Located<'_>, context: &Context<'_>) -> PropertyNames
    ensures { (units : List ℕ) (c : Scope) → NamesOf context.now.payload.now units context.now.ends.now context.now.notes.now context.now.tables.records c.names → (m : Message) → cut (told_part msg.entry) ≡ ok m → ThreeTold context.now.payload.now units c (some m) result }
{
    let field = field_in(msg, context);
    let getter = signature_in(msg, JVM_PROPERTY_SIGNATURE_GETTER, context);
    let setter = signature_in(msg, JVM_PROPERTY_SIGNATURE_SETTER, context);
    PropertyNames {
        field,
        getter,
        setter,
    }
}

// The signatures of a property.
pub(crate) fn property_signatures(
    msg: Located<'_>,
    context: &Context<'_>,
) -> Result<PropertyNames, WireError>
    ensures { (units : List ℕ) (c : Scope) → NamesOf context.now.payload.now units context.now.ends.now context.now.notes.now context.now.tables.records c.names → (m : Message) → cut (told_part msg.entry) ≡ ok m → PropertySignedTold context.now.payload.now units c m result }
{
    let Some(inner) = message(msg, PROPERTY_PROPERTY_SIGNATURE)? else {
        return Ok(unsigned_property());
    };
    Ok(three_in(msg.part(inner), context))
}
