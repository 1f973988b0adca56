// The body of a class or package written as rows: the head, constructors, functions, properties, type aliases; then the head's counts. The definitions:
// specs/Payload.antt, `declaration_rows`, and schema's specs/Members.antt, `after_table`; what the functions tell: specs/told/BodyTold.antt.
ghost use Rattle.std.specs.Prelude.{◌≡◌, eqb, if◌then◌else◌, length};
ghost use Rattle.sheet.specs.told.Put.{SameAreas};
ghost use Rattle.schema.specs.told.SchemaTold.{lent, Stands};
ghost use Rattle.schema.specs.told.MembersTold.{Affords};
ghost use Rattle.schema.specs.told.WroteTold.{Writes};
ghost use Rattle.members.specs.told.EndsTold.{EndsAt};
ghost use Rattle.inputs.specs.told.KindTold.{kind_number};
ghost use Rattle.declarations.specs.told.BodyTold.{head_cost, list_cost, aliases_cost, lists_cost, body_cost, BodyHead, ConstructorsTold, AliasesTold, ListsTold, BodyWalked};

use declaration_rows::{put_aliases, put_count, put_head, put_head_counts};
use fields::{
    CLASS_CONSTRUCTOR, CLASS_FLAGS, CLASS_FQ_NAME, CLASS_FUNCTION, CLASS_PROPERTY,
    CLASS_TYPE_ALIAS, OMITTED_FLAGS, PACKAGE_FUNCTION, PACKAGE_PROPERTY, PACKAGE_TYPE_ALIAS,
};
use foundation::{Context, Located};
use inputs::Kind;
use members::list::{Member, MemberList, members_in};
use schema::flags::flags_in;
use schema::name::class_name_in;
use schema::{Section, Stop};
use sheet::{Output, State};

// How far both areas are written after the head, which has no count, and after each list, and how many each list has. Kind 9 stands where the properties end.
#[derive(Clone, Copy)]
pub struct Sections {
    pub head: State,
    pub constructors: Section,
    pub functions: Section,
    pub properties: Section,
    pub aliases: Section,
}

// The field of a list, which a class and a package number apart.
pub fn field_of(kind: Kind, in_class: u32, in_package: u32) -> u32
    ensures { result ≡ (if eqb (kind_number kind) 1 then in_class else in_package) }
{
    if kind.is_class() {
        in_class
    } else {
        in_package
    }
}

// The head up to its counts. A package has no class name, and flags 6.
// `Affords`, here and below, is no invariant of `Output`: each function asks for room for an amount of its own.
fn head_in(kind: Kind, msg: Located<'_>, context: &Context<'_>, out: &mut Output<'_>)
    requires { Affords (lent context.now) head_cost out.old.state }
    ensures same_areas { SameAreas out.old out.new }
    ensures written { Writes (BodyHead (kind_number kind) (lent context.now) msg.entry.bytes.now msg.entry.base) out.old out.new.state out.new }
{
    if !kind.is_class() {
        put_head(context, kind.number(), None, OMITTED_FLAGS, out);
        return;
    }
    let flags = flags_in(msg, CLASS_FLAGS, OMITTED_FLAGS);
    let name = class_name_in(msg, CLASS_FQ_NAME, context);
    put_head(context, kind.number(), name, flags, out);
}

// The constructors of a class; a package has none.
fn constructors_in(
    kind: Kind,
    msg: Located<'_>,
    context: &Context<'_>,
    out: &mut Output<'_>,
) -> Result<Section, Stop>
    requires { Affords (lent context.now) (list_cost (length msg.bytes.now)) out.old.state × Stands context.now.payload.now msg.bytes.now msg.base }
    ensures same_areas { SameAreas out.old out.new }
    ensures ends { EndsAt result out.new.state }
    ensures written { Writes (ConstructorsTold (eqb (kind_number kind) 1) (lent context.now) msg.entry.bytes.now msg.entry.base) out.old result out.new }
{
    if !kind.is_class() {
        return Ok(Section {
            state: out.state,
            count: 0,
        });
    }
    members_in(
        MemberList {
            member: Member::Constructor,
            number: CLASS_CONSTRUCTOR,
        },
        msg,
        context,
        out,
    )
}

// The type aliases: kind 9 with their count, also when there is none, then each.
fn aliases_in(
    kind: Kind,
    msg: Located<'_>,
    context: &Context<'_>,
    out: &mut Output<'_>,
) -> Result<Section, Stop>
    requires { Affords (lent context.now) (aliases_cost (length msg.bytes.now)) out.old.state × Stands context.now.payload.now msg.bytes.now msg.base }
    ensures same_areas { SameAreas out.old out.new }
    ensures written { Writes (AliasesTold (eqb (kind_number kind) 1) (lent context.now) msg.entry.bytes.now msg.entry.base) out.old result out.new }
{
    put_aliases(out);
    let place = out.state.sheet;
    out.state.sheet += 2;
    let aliases = members_in(
        MemberList {
            member: Member::Alias,
            number: field_of(kind, CLASS_TYPE_ALIAS, PACKAGE_TYPE_ALIAS),
        },
        msg,
        context,
        out,
    )?;
    put_count(out.sheet, place, aliases.count);
    Ok(aliases)
}

// Constructors, functions, properties, type aliases, after the head.
fn lists_in(
    kind: Kind,
    msg: Located<'_>,
    context: &Context<'_>,
    out: &mut Output<'_>,
) -> Result<Sections, Stop>
    requires { Affords (lent context.now) (lists_cost (length msg.bytes.now)) out.old.state × Stands context.now.payload.now msg.bytes.now msg.base }
    ensures same_areas { SameAreas out.old out.new }
    ensures written { Writes (ListsTold (eqb (kind_number kind) 1) (lent context.now) msg.entry.bytes.now msg.entry.base) out.old result out.new }
{
    let head = out.state;
    let constructors = constructors_in(kind, msg, context, out)?;
    let functions = members_in(
        MemberList {
            member: Member::Function,
            number: field_of(kind, CLASS_FUNCTION, PACKAGE_FUNCTION),
        },
        msg,
        context,
        out,
    )?;
    let properties = members_in(
        MemberList {
            member: Member::Property,
            number: field_of(kind, CLASS_PROPERTY, PACKAGE_PROPERTY),
        },
        msg,
        context,
        out,
    )?;
    let aliases = aliases_in(kind, msg, context, out)?;
    Ok(Sections {
        head,
        constructors,
        functions,
        properties,
        aliases,
    })
}

// A whole body, after its type table.
// Callers show `Affords` and `Stands`: passes begins at places 0, and its body is the payload's rest, within the limits (`InLimits`).
pub fn body_in(
    kind: Kind,
    msg: Located<'_>,
    context: &Context<'_>,
    out: &mut Output<'_>,
) -> Result<Sections, Stop>
    requires { Affords (lent context.now) (body_cost (length msg.bytes.now)) out.old.state × Stands context.now.payload.now msg.bytes.now msg.base }
    ensures same_areas { SameAreas out.old out.new }
    ensures written { Writes (BodyWalked (kind_number kind) (lent context.now) msg.entry.bytes.now msg.entry.base) out.old result out.new }
{
    head_in(kind, msg, context, out);
    let place = out.state.sheet;
    out.state.sheet += 6;
    let sections = lists_in(kind, msg, context, out)?;
    put_head_counts(
        out.sheet,
        place,
        sections.constructors.count,
        sections.functions.count,
        sections.properties.count,
    );
    Ok(sections)
}
