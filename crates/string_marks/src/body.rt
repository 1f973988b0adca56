// The body of a class or package, after its type table, as schema's `after_table` reads it. What is told: specs/told/MarksTold.antt.
ghost use Rattle.std.specs.Prelude.{eqb};
ghost use Rattle.schema.specs.Members.{Head, head_in, constructors_in, lists_in, after_table};
ghost use Rattle.schema.specs.told.SchemaTold.{lent};
ghost use Rattle.inputs.specs.told.KindTold.{kind_number};
ghost use Rattle.string_marks.specs.told.MarksTold.{MarksIn};

use crate::look_ups::mark_name;
use crate::member_lists::mark_members;
use declarations::body::field_of;
use fields::{
    CLASS_CONSTRUCTOR, CLASS_FQ_NAME, CLASS_FUNCTION, CLASS_PROPERTY, CLASS_TYPE_ALIAS,
    PACKAGE_FUNCTION, PACKAGE_PROPERTY, PACKAGE_TYPE_ALIAS,
};
use foundation::{Context, Located};
use inputs::Kind;
use members::list::{Member, MemberList};

// The class name; a package has none.
fn mark_head(kind: Kind, msg: Located<'_>, context: &Context<'_>, used: &mut [u8])
    ensures { MarksIn (lent context.now) msg.entry.base msg.entry.bytes.now (head_in (eqb (kind_number kind) 1)) used.old used.new }
{
    if kind.is_class() {
        mark_name(msg, CLASS_FQ_NAME, context, used);
    }
}

// The constructors of a class; a package has none.
fn mark_constructors(kind: Kind, msg: Located<'_>, context: &Context<'_>, used: &mut [u8])
    ensures { MarksIn (lent context.now) msg.entry.base msg.entry.bytes.now (constructors_in (eqb (kind_number kind) 1)) used.old used.new }
{
    if kind.is_class() {
        let list = MemberList {
            member: Member::Constructor,
            number: CLASS_CONSTRUCTOR,
        };
        mark_members(list, msg, context, used);
    }
}

// Constructors, functions, properties, type aliases.
fn mark_lists(kind: Kind, msg: Located<'_>, context: &Context<'_>, used: &mut [u8])
    ensures { (h : Head) → MarksIn (lent context.now) msg.entry.base msg.entry.bytes.now (lists_in (eqb (kind_number kind) 1) h) used.old used.new }
{
    mark_constructors(kind, msg, context, used);
    let functions = MemberList {
        member: Member::Function,
        number: field_of(kind, CLASS_FUNCTION, PACKAGE_FUNCTION),
    };
    mark_members(functions, msg, context, used);
    let properties = MemberList {
        member: Member::Property,
        number: field_of(kind, CLASS_PROPERTY, PACKAGE_PROPERTY),
    };
    mark_members(properties, msg, context, used);
    let aliases = MemberList {
        member: Member::Alias,
        number: field_of(kind, CLASS_TYPE_ALIAS, PACKAGE_TYPE_ALIAS),
    };
    mark_members(aliases, msg, context, used);
}

// A whole body, after its type table.
pub(crate) fn mark_body(kind: Kind, msg: Located<'_>, context: &Context<'_>, used: &mut [u8])
    ensures { MarksIn (lent context.now) msg.entry.base msg.entry.bytes.now (after_table (eqb (kind_number kind) 1)) used.old used.new }
{
    mark_head(kind, msg, context, used);
    mark_lists(kind, msg, context, used);
}
