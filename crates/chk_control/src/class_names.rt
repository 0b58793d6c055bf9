//! The names of classes in lines.

ghost use Rattle.std.specs.Prelude.{◌≡◌};
ghost use Rattle.chk_control.specs.Classes.{bare_name, class_named, class_of_name, NamesTellClasses};

use crate::Class;

/// The class of a name, which is bare or stands behind one of the two packages.
#[tactic(auto, unfolding(crate::specs::Classes::class_of_name))]
pub fn class_of_name(name: &[u8]) -> Option<Class>
    ensures { result ≡ class_of_name name.now }
{
    class_named(bare_name(name))
}

/// The class of a bare name.
pub fn class_named(name: &[u8]) -> Option<Class>
    ensures { result ≡ class_named name.now }
{
    if name == b"LWFTAdaptor".as_slice() {
        Some(Class::Plain)
    } else if name == b"FileTailingAdaptor".as_slice() {
        Some(Class::Rotating)
    } else if name == b"CharFileTailingAdaptorUTF8".as_slice() {
        Some(Class::Lines)
    } else {
        None
    }
}

fn bare_name(name: &[u8]) -> &[u8]
    ensures { result.now ≡ bare_name name.now }
{
    if let Some(bare) = name.strip_prefix(
        b"org.apache.hadoop.chukwa.datacollection.adaptor.filetailer.".as_slice(),
    ) {
        return bare;
    }
    if let Some(bare) = name.strip_prefix(b"filetailer.".as_slice()) {
        return bare;
    }
    name
}

/// A name is of a class exactly where it is one of the three of that class.
pub fn law_class_names()
    ensures { NamesTellClasses }
{}
