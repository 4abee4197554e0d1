ghost use Rattle.std.specs.Prelude.{◌≡◌, ◌<◌, Some, slice_get};
ghost use Rattle.bsv_design.specs.parts.MethodNames.{register_names, wire_names, rwire_names};
ghost use Rattle.bsv_design.specs.parts.MethodNames.{pulse_names, queue_names};

/// The name of a register's method.
pub(crate) fn register_name(method: u32) -> &'static str
    requires { method < 2 }
    ensures { slice_get register_names method ≡ Some result.now }
{
    if method == 0 { "_read" } else { "_write" }
}

/// The name of a method of a wire with a word.
pub(crate) fn wire_name(method: u32) -> &'static str
    requires { method < 2 }
    ensures { slice_get wire_names method ≡ Some result.now }
{
    if method == 0 { "_write" } else { "_read" }
}

/// The name of a method of a wire that reads as Valid or Invalid.
pub(crate) fn rwire_name(method: u32) -> &'static str
    requires { method < 2 }
    ensures { slice_get rwire_names method ≡ Some result.now }
{
    if method == 0 { "wset" } else { "wget" }
}

/// The name of a method of a wire without a word.
pub(crate) fn pulse_name(method: u32) -> &'static str
    requires { method < 2 }
    ensures { slice_get pulse_names method ≡ Some result.now }
{
    if method == 0 { "send" } else { "_read" }
}

/// The name of a queue's method.
pub(crate) fn queue_name(method: u32) -> &'static str
    requires { method < 6 }
    ensures { slice_get queue_names method ≡ Some result.now }
{
    match method {
        0 => "enq",
        1 => "deq",
        2 => "first",
        3 => "notFull",
        4 => "notEmpty",
        _ => "clear",
    }
}
