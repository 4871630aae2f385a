//! A workspace: cells and accepted equations over an alphabet. Its refusals, what each of its calls answers, and what holds of every state
//! that calls lead to.
#![tactic(auto)]

pub mod fault;
pub mod theorems;

#[cfg(test)]
mod tests {
    use crate::fault::Fault;

    #[test]
    fn numbers_and_values(rt: HostRuntime) {
        let faults = [
            (Fault::Full, 1, (0, 0)),
            (Fault::NoCode { set: 255 }, 2, (255, 0)),
            (Fault::NoSuchCode { code: u32::MAX }, 3, (4294967295, 0)),
            (
                Fault::WrongCount {
                    code: 4,
                    count: usize::MAX,
                },
                4,
                (4, 18446744073709551615),
            ),
            (Fault::NoSuchCell { cell: 2048 }, 5, (2048, 0)),
            (Fault::NoRoom, 6, (0, 0)),
            (Fault::NoTypes { left: 3, right: 1 }, 7, (3, 1)),
            (Fault::NoClasses { left: 3, right: 1 }, 8, (3, 1)),
        ];
        for (fault, number, values) in faults {
            assert_eq!(rt; fault.number(), number);
            assert_eq!(rt; fault.values(), values);
        }
    }
}
