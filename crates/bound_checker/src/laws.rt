ghost use Rattle.bound_checker.specs.Accepts.{AcceptedIsBounded};

/// An accepted certificate bounds every layout of the given instance.
pub fn accepted_is_bounded()
    ensures { AcceptedIsBounded }
{}
