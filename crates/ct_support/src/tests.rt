// Numbers from outside.
use crate::calls::support;
use crate::{Range, Support, columns, count};

#[test]
fn degrees_run_within_an_order(rt: HostRuntime) {
    let orders = Range { low: 1, high: 2 };
    let degrees = Range { low: 3, high: 5 };
    assert_eq!(rt; count(&orders, &degrees), 6);
    let second = Support {
        index: 1,
        order: 1,
        degree: 4,
    };
    assert_eq!(rt; support(&orders, &degrees, 1), Some(second));
    let last = Support {
        index: 5,
        order: 2,
        degree: 5,
    };
    assert_eq!(rt; support(&orders, &degrees, 5), Some(last));
    assert_eq!(rt; support(&orders, &degrees, 6), None);
    assert_eq!(rt; support(&orders, &degrees, u64::MAX), None);
}

#[test]
fn the_widest_ranges_have_117_supports(rt: HostRuntime) {
    let orders = Range { low: 0, high: 8 };
    let degrees = Range { low: 0, high: 12 };
    assert_eq!(rt; count(&orders, &degrees), 117);
}

// the binomial coefficients of 4 over 2, 12 over 4 and 15 over 3, and of 65539 over 4 and 65538 over 3
#[test]
fn columns_are_as_many_as_binomial_coefficients_say(rt: HostRuntime) {
    let of = |order: u16, degree: u16| Support {
        index: 0,
        order,
        degree,
    };
    assert_eq!(rt; columns(0, 2, 1, &of(0, 2)), 13);
    assert_eq!(rt; columns(1, 1, 1, &of(1, 0)), 3);
    assert_eq!(rt; columns(4, 3, 16, &of(8, 12)), 22335);
    assert_eq!(rt; columns(4, 3, 16, &of(65535, 65535)), 770936610011234304);
}
