ghost use Rattle.std.specs.Prelude.{◌≡◌};
ghost use Rattle.requestor.specs.Session.{context_of, has_writers};

use vss_names::Context;

/// Whether writers take part in a session of this context.
pub fn has_writers(context: Context) -> bool
    ensures { result ≡ has_writers context }
{
    match context {
        Context::Backup | Context::AppRollback => true,
        Context::NasRollback => false,
    }
}

/// The context in which `begin` with this number opens a session. There is none where the number is of no context,
/// and where all writers are to take part in a context that has none.
pub fn context_of(number: u32, all: bool) -> Option<Context>
    ensures { result ≡ context_of number all }
{
    match Context::of_number(number) {
        Some(context) if all && !has_writers(context) => None,
        found => found,
    }
}
