// No code: the bench cases of document 01, shown of the very definitions that the contracts cite. `test_bench` runs them.
#![tactic(auto)]
