// Evidence for an answer (document 02, No. 9): definitions in specs/, the agreement in proofs/. No code; the checker is call_evidence.
#![tactic(auto)]
