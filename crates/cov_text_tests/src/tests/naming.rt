// Options for the tests that name some.
use cov_base::OptionName;
use cov_expr::Options;
use std::alloc::Global;
use std::test::Fail;

/// Declares an option.
pub(crate) fn declare(alloc: Global, options: &mut Options, name: &[u8]) -> Result<(), Fail> {
    let name = OptionName::read(alloc, name)?;
    options.reserve()?;
    if options.find(name.as_slice()).is_some() || options.count() >= 64 {
        return Err(Fail::from("an option too many"));
    }
    options.declare(name);
    Ok(())
}

/// Declares the options `a` and `b`.
pub(crate) fn declare_two(alloc: Global, options: &mut Options) -> Result<(), Fail> {
    declare(alloc, options, b"a")?;
    declare(alloc, options, b"b")
}

/// Lends a check the options, of which there are none yet.
pub(crate) fn with_options<F: FnOnce(&mut Options) -> Result<(), Fail>>(
    alloc: Global,
    check: F,
) -> Result<(), Fail>
    requires { F.IsAlwaysCallable check }
{
    let mut options = Options::new(alloc);
    let checked = check(&mut options);
    drop(options);
    checked
}
