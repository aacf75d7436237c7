// Tests of scripts: every fault and every refusal that a script can meet, each at its place.
#![tactic(auto)]

#[cfg(test)]
mod tests {
    use script::run::run;
    use std::alloc::Global;
    use std::process::Abort;
    use std::test::Fail;

    // Does a script of these bytes print this?
    fn bytes_print(
        rt: &impl Abort,
        heap: Global,
        script: &[u8],
        printed: &str,
    ) -> Result<(), Fail> {
        let transcript = run(heap, script)?;
        assert_eq!(rt; transcript.text.as_str(), printed);
        Ok(())
    }

    fn prints(rt: &impl Abort, heap: Global, script: &str, printed: &str) -> Result<(), Fail> {
        bytes_print(rt, heap, script.as_bytes(), printed)
    }

    // Does a script end so after its floor form, which is the first line here?
    fn goes_on(rt: &impl Abort, heap: Global, lines: &str, printed: &str) -> Result<(), Fail> {
        let script = format!(in heap; "(floor cutting 2 2 1 1)\n{lines}")?;
        let expected = format!(in heap; "(opened)\n{printed}")?;
        bytes_print(rt, heap, script.as_bytes(), expected.as_str())
    }

    // A floor form and then spaces up to a number of bytes.
    fn padded(heap: Global, length: usize) -> Result<Vec<u8>, Fail> {
        let mut script = b"(floor cutting 1 1 1 1)".to_vec(heap)?;
        for _ in script.len()..length {
            script.push(b' ')?;
        }
        Ok(script)
    }

    #[test]
    fn longest(rt: HostRuntime) -> Result<(), Fail> {
        let heap = rt.alloc();
        let most = padded(heap, 32768)?;
        assert!(rt; most.len() == 32768);
        bytes_print(&rt, heap, &most, "(opened)\n(nest)\n(line)\n")?;
        let more = padded(heap, 32769)?;
        bytes_print(&rt, heap, &more, "(fault 16 1 1)\n")
    }

    #[test]
    fn too_long_before_all_else(rt: HostRuntime) -> Result<(), Fail> {
        let mut script = padded(rt.alloc(), 32768)?;
        script.push(b'#')?;
        bytes_print(&rt, rt.alloc(), &script, "(fault 16 1 1)\n")
    }

    // Each byte alone: one that may stand in a script is no form, and any other is fault 17.
    #[test]
    fn every_byte(rt: HostRuntime) -> Result<(), Fail> {
        for byte in 0..=255u8 {
            let may_stand = byte.is_ascii_alphanumeric()
                || byte == b' '
                || byte == b'('
                || byte == b')'
                || byte == b'\n';
            let printed = if may_stand {
                "(fault 19 1 1)\n"
            } else {
                "(fault 17 1 1)\n"
            };
            bytes_print(&rt, rt.alloc(), &[byte], printed)?;
        }
        Ok(())
    }

    #[test]
    fn faults_at_their_places(rt: HostRuntime) -> Result<(), Fail> {
        let heap = rt.alloc();
        goes_on(&rt, heap, "(touch #1)", "(fault 17 2 8)\n")?;
        goes_on(&rt, heap, "(touch 01)", "(fault 18 2 8)\n")?;
        goes_on(&rt, heap, "(touch 100000)", "(fault 18 2 8)\n")?;
        goes_on(&rt, heap, "(abcdefghi 1)", "(fault 18 2 2)\n")?;
        goes_on(&rt, heap, "(touch 1x)", "(fault 18 2 8)\n")?;
        goes_on(&rt, heap, "(touch 1 x-01)", "(fault 17 2 11)\n")?;
        goes_on(&rt, heap, "(touch 01 #)", "(fault 18 2 8)\n")?;
        goes_on(&rt, heap, "(touch one) 01", "(fault 18 2 13)\n")
    }

    #[test]
    fn lines_that_are_no_form(rt: HostRuntime) -> Result<(), Fail> {
        let heap = rt.alloc();
        prints(&rt, heap, "", "(fault 19 1 1)\n")?;
        prints(&rt, heap, "\n", "(fault 19 1 1)\n")?;
        prints(&rt, heap, "(touch 1)\n", "(fault 19 1 1)\n")?;
        prints(&rt, heap, "(floor sewing 1 1 1 1)", "(fault 19 1 1)\n")?;
        goes_on(&rt, heap, "\n", "(fault 19 2 1)\n")?;
        goes_on(&rt, heap, "(floor cutting 2 2 1 1)", "(fault 19 2 1)\n")?;
        goes_on(&rt, heap, "(start 1 (add (letter xm)))", "(fault 19 2 1)\n")?;
        goes_on(&rt, heap, "(start 1 (add (piece A 1)))", "(fault 19 2 1)\n")?;
        goes_on(&rt, heap, "(touch 1) (touch 1)", "(fault 19 2 1)\n")
    }

    #[test]
    fn after_a_close(rt: HostRuntime) -> Result<(), Fail> {
        let heap = rt.alloc();
        goes_on(&rt, heap, "(close)", "(closed)\n(nest)\n(line)\n")?;
        goes_on(&rt, heap, "(close)\n", "(closed)\n(nest)\n(line)\n")?;
        goes_on(&rt, heap, "(close)\n\n", "(closed)\n(fault 19 3 1)\n")?;
        goes_on(
            &rt,
            heap,
            "(close)\n(touch 1)",
            "(closed)\n(fault 19 3 1)\n",
        )?;
        goes_on(
            &rt,
            heap,
            "(close)\n(touch 01)",
            "(closed)\n(fault 18 3 8)\n",
        )
    }

    #[test]
    fn floors_that_are_not_opened(rt: HostRuntime) -> Result<(), Fail> {
        let heap = rt.alloc();
        prints(&rt, heap, "(floor cutting 0 0 0 0)\n#", "(refused 1)\n")?;
        prints(&rt, heap, "(floor cutting 17 1 1 1)", "(refused 1)\n")?;
        prints(&rt, heap, "(floor cutting 16 0 0 0)", "(refused 2)\n")?;
        prints(&rt, heap, "(floor cutting 1 1025 1 1)", "(refused 2)\n")?;
        prints(&rt, heap, "(floor pattern 1 1024 0 0)", "(refused 3)\n")?;
        prints(&rt, heap, "(floor pattern 1 1 513 1)", "(refused 3)\n")?;
        prints(&rt, heap, "(floor pattern 1 1 512 0)", "(refused 4)\n")?;
        prints(&rt, heap, "(floor pattern 1 1 1 513)", "(refused 4)\n")
    }

    #[test]
    fn calls_sent_back(rt: HostRuntime) -> Result<(), Fail> {
        let heap = rt.alloc();
        let report = "(nest)\n(line)\n";
        let refused_6 = format!(in heap; "(refused 6)\n(refused 6)\n(refused 6)\n{report}")?;
        goes_on(
            &rt,
            heap,
            "(start 3 (take))\n(touch 0)\n(collect 3)",
            refused_6.as_str(),
        )?;
        let refused_7 = format!(in heap;
            "(started)\n(refused 7)\n(refused 10)\n(refused 13)\n{report}"
        )?;
        goes_on(
            &rt,
            heap,
            "(start 1 (take))\n(start 1 (take))\n(collect 1)\n(close)",
            refused_7.as_str(),
        )?;
        let refused_8 = format!(in heap; "(refused 8)\n(refused 8)\n{report}")?;
        goes_on(&rt, heap, "(touch 1)\n(collect 1)", refused_8.as_str())?;
        let refused_14 = format!(in heap; "(refused 14)\n(refused 14)\n{report}")?;
        goes_on(
            &rt,
            heap,
            "(start 9 (add (w 39 76)))\n(start 1 (put (ticket (letter m) 201)))",
            refused_14.as_str(),
        )
    }

    #[test]
    fn ready_full_and_no_space(rt: HostRuntime) -> Result<(), Fail> {
        let heap = rt.alloc();
        goes_on(
            &rt,
            heap,
            "(start 1 (find (letter m)))\n(touch 1)\n(touch 1)",
            "(started)\n(counted ready)\n(refused 9)\n(nest)\n(line)\n(entry 1 1 (find (letter m)) (no))\n",
        )?;
        prints(
            &rt,
            heap,
            "(floor pattern 2 1 1 1)\n(start 1 (take))\n(start 2 (take))",
            "(opened)\n(started)\n(refused 11)\n(nest)\n(line)\n",
        )?;
        goes_on(
            &rt,
            heap,
            "(start 1 (add (letter m)))\n(start 2 (add (letter l)))",
            "(started)\n(refused 12)\n(nest)\n(line)\n",
        )
    }

    #[test]
    fn last_newline_may_be_absent(rt: HostRuntime) -> Result<(), Fail> {
        let heap = rt.alloc();
        goes_on(&rt, heap, "(touch 1)", "(refused 8)\n(nest)\n(line)\n")?;
        goes_on(&rt, heap, "(touch 1)\n", "(refused 8)\n(nest)\n(line)\n")?;
        goes_on(&rt, heap, " ( touch  1 ) ", "(refused 8)\n(nest)\n(line)\n")
    }
}
